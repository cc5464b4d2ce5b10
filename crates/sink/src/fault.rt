// What a sink answers where it does not take a byte, and the fault that a print then ends with.

ghost use Rattle.std.specs.Prelude.{◌≡◌};
ghost use Rattle.sink.specs.declared.fault.Refusal.TheVariants.{Own};

use arrayvec::CapacityError;
use std::error::Error;
use std::fmt;

// The number under which a sink here refuses a byte that it has no room for.
pub const FULL: u8 = 10;

// Why a sink refused a byte. Refusals and kinds stay numbers, since a sink elsewhere has some of its own.
#[derive(Clone, Copy, Debug, PartialEq, Eq)]
pub enum Refusal {
    // The sink's own refusal, by its number.
    Own(u8),
    // Passed on from a sink underneath, with that sink's kind.
    Below { number: u8, kind: u8 },
}

// There is no room.
impl<T: Drop> From<CapacityError<T>> for Refusal {
    ghost from_gives = { λ _ r. r ≡ Own 10 };

    fn from(_: CapacityError<T>) -> Refusal {
        Refusal::Own(FULL)
    }
}

// A print that a sink cut short.
#[derive(Clone, Copy, Debug, PartialEq, Eq)]
pub struct SinkFault {
    // the number of the refusal
    pub number: u8,
    // the kind of the sink that refused
    pub kind: u8,
    // the length of the print that stands in the sink
    pub text: usize,
}

impl fmt::Display for SinkFault {
    fn fmt<W: fmt::Write>(&self, f: &mut fmt::Formatter<W>) -> fmt::Result {
        let SinkFault { number, kind, text } = self;
        write!(f, "refused by {number}, kind {kind}, behind {text} bytes")
    }
}

impl Error for SinkFault {}
