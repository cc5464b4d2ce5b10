// The three queues, and the running counts that go with them.
use queue::Queue;
use stream::record::{Place, Slot};

pub mod coming;
pub mod going;

// The most tokens that are held back.
pub const MOST: usize = 384;

// The most bytes that their Texts have.
pub const MOST_BYTES: usize = 512;

// Which tokens the queues hold (`Holds`) stays a fact of the contracts: no field has the first token's full
// number or the blocks open before it, so an invariant cannot name them.
#[derive(Clone, Copy, Debug)]
pub struct Scan {
    slots: Queue<Slot, MOST>,
    texts: Queue<u8, MOST_BYTES>,
    places: Queue<Place, MOST>,
    // blocks open behind the last token
    depth: u8,
    // widths of all tokens so far, and of those that have gone, modulo 2^16
    total: u16,
    base: u16,
    // the number of the first token held, modulo 2^16
    serial: u16,
}
