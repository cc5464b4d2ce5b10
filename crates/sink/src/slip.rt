// Slip, the sink of kind 2: a table of 16 rows of 40 bytes, where a newline starts the next row. It admits the texts of at most 15 newlines
// and 40 bytes a line.

ghost use Rattle.std.specs.Prelude.{◌≡◌, ◌<◌, ◌≤◌, map, length};
ghost use Rattle.lines.specs.Lines.{lines, widest};
ghost use Rattle.sink.specs.Rows.{line, text_on};

use arrayvec::ArrayVec;

mod filling;
mod reading;

// How many rows a slip has.
pub const ROWS: usize = 16;

// The most bytes that a row holds.
pub const WIDTH: usize = 40;

// A row holds a line.
type Row = ArrayVec<u8, WIDTH>;

// The rows begun hold the lines of a text of `len` bytes; the last one is being filled.
#[derive(Drop)]
pub struct Slip {
    rows: ArrayVec<Row, ROWS>,
    len: usize,
    ghost some: { 0 < length rows.items },
    ghost few: { length rows.items ≤ 16 },
    ghost split: { lines (text_on rows.items) ≡ map line rows.items },
    ghost narrow: { widest (text_on rows.items) ≤ 40 },
    ghost size: { length (text_on rows.items) ≡ len },
}

impl Slip {
    ghost use Rattle.std.specs.Prelude.{[]};
    ghost use Rattle.sink.specs.SlipLaws.{text_of};

    // A slip with no text: one row with no byte.
    pub fn new() -> Slip
        ensures { text_of result ≡ [] }
    {
        let mut rows = ArrayVec::new();
        rows.push(Row::new());
        Slip { rows, len: 0 }
    }
}
