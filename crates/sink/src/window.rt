// Window, the sink of kind 1: a text in front of a lent buffer. It uses at most the first 32,768 bytes of the buffer and admits the texts
// that fit; the bytes past the text keep their old contents. The lender gets the buffer back, with the text in front.

ghost use Rattle.std.specs.Prelude.{◌≡◌, ◌≤◌, [], length, take};

use crate::fault::{FULL, Refusal};
use crate::sink::Sink;

// The most bytes of a buffer that a window uses.
pub const MOST: usize = 32_768;

// The text is the first `len` bytes of the buffer. The two stay apart, here and in `Filled`: the buffer is lent, and goes back whole.
#[derive(Drop)]
pub struct Window<'a> {
    buffer: &'a mut [u8],
    len: usize,
    ghost within: { len ≤ length buffer.now },
    ghost most: { len ≤ 32768 },
}

// A buffer that its lender has back, with a text of `len` bytes in front.
#[derive(Drop)]
pub struct Filled<'a> {
    pub buffer: &'a mut [u8],
    pub len: usize,
}

impl<'a> Window<'a> {
    ghost use Rattle.sink.specs.WindowText.{room, text_of};

    // A window over a buffer, with no text.
    pub fn new(buffer: &'a mut [u8]) -> Window<'a>
        ensures loan { result.buffer.ghost_name ≡ buffer.entry.ghost_name }
        ensures bytes { result.buffer.now ≡ buffer.old }
        ensures len { result.len ≡ 0 }
        ensures text { text_of result ≡ [] }
    {
        Window { buffer, len: 0 }
    }

    // How many bytes the window may use.
    fn room(&self) -> usize
        ensures { result ≡ room self.now.buffer.now }
    {
        self.buffer.len().min(MOST)
    }

    // The text.
    pub fn text(&self) -> &[u8]
        ensures { result.now ≡ text_of self.now }
    {
        &self.buffer[..self.len]
    }

    // The buffer, with the text in front. A function that is lent a buffer and returns this tells its caller what the buffer holds.
    pub fn into_buffer(self) -> Filled<'a>
        ensures loan { result.buffer.ghost_name ≡ self.entry.buffer.ghost_name }
        ensures bytes { result.buffer.now ≡ self.entry.buffer.now }
        ensures len { result.len ≡ length (text_of self.entry) }
        ensures text { take result.len result.buffer.now ≡ text_of self.entry }
    {
        let Window { buffer, len } = self;
        Filled { buffer, len }
    }
}

impl Sink for Window<'_> {
    ghost use Rattle.std.specs.Prelude.{◌≡◌};
    ghost use Rattle.sink.specs.WindowText.{text_of, rule_of, Later};
    ghost use Rattle.sink.specs.WindowLaws.{window_laws};

    ghost kind = { 1 };

    ghost text = { text_of };

    ghost rule = { rule_of };

    ghost later = { Later };

    ghost laws = { window_laws };

    // At a type with a lifetime the clause is not taken from the trait.
    fn kind() -> u8
        ensures { result ≡ 1 }
    {
        1
    }

    fn len(&self) -> usize {
        self.len
    }

    fn put(&mut self, byte: u8) -> Result<(), Refusal> {
        if self.len >= self.room() {
            return Err(Refusal::Own(FULL));
        }
        self.buffer[self.len] = byte;
        self.len += 1;
        Ok(())
    }
}
