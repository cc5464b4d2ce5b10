// The pen that writes a layout: its margin, its column, which stops at 65,535, its open blocks, at
// most 64, the last one innermost, and the newlines and the widest line written so far.
ghost use Rattle.std.specs.Prelude.{◌≡◌, ◌≤◌, length};
ghost use Rattle.queue.specs.Items.{items};

use layout::margin::Margin;
use layout::token::Block;
use queue::Queue;

pub mod writing;

// The most blocks that are open at once.
pub const BLOCKS: usize = 64;

#[derive(Clone, Copy)]
pub struct Pen {
    margin: Margin,
    column: u16,
    widest: u16,
    newlines: u64,
    blocks: Queue<Block, BLOCKS>,
    ghost few: { length (items blocks) ≤ 64 },
}

impl Pen {
    pub fn margin(&self) -> Margin
        ensures { result ≡ self.now.margin }
    {
        self.margin
    }

    pub fn newlines(&self) -> u64
        ensures { result ≡ self.now.newlines }
    {
        self.newlines
    }

    pub fn widest(&self) -> u16
        ensures { result ≡ self.now.widest }
    {
        self.widest
    }
}
