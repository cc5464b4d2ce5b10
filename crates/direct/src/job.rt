// A direct job that is open, and one that is drained. Neither can be let go: an open job is drained,
// and a drained one hands its sink back.
ghost use Rattle.std.specs.Prelude.{◌≤◌, length};

use crate::fault::DirectFault;
use crate::outcome::Outcome;
use arrayvec::ArrayVec;
use printer::printer::Printer;

pub mod asking;
pub mod calls;
pub mod draining;
pub mod laying;
mod ranges;

// The most tokens of a direct job.
pub const TOKENS: u32 = 1_000_000;

// The most blocks open at once.
pub const BLOCKS: usize = 64;

// Where it stands (`Stands`) stays a premise of its calls, since the calls made are in no field.
pub struct DirectJob<S> {
    sink: S,
    printer: Printer,
    number: u32,
    // tokens given
    given: u32,
    // the token numbers of the open blocks' Openings, the innermost last
    blocks: ArrayVec<u32, BLOCKS>,
    fault: Option<DirectFault>,
    ghost deep: { length blocks.items ≤ 64 },
    ghost few: { given ≤ 1000000 },
}

pub struct Drained<S> {
    sink: S,
    outcome: Outcome,
}
