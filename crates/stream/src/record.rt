// The elements of the printer's queues.
use layout::token::Token;

// A token that is held back: a Text by its length.
pub type Held = Token<u16>;

// The record of a token, with its size; none while an Opening or a Break waits for its reach.
#[derive(Clone, Copy, PartialEq, Eq, Debug)]
pub struct Slot {
    pub token: Held,
    pub size: Option<u16>,
}

// An Opening or a Break that waits for its reach: its token number and the widths of all tokens
// before it, both modulo 2^16, and the blocks open before it.
#[derive(Clone, Copy, Default, PartialEq, Eq, Debug)]
pub struct Place {
    pub serial: u16,
    pub since: u16,
    pub depth: u8,
}
