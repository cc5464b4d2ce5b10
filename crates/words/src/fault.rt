// Why no more words come.
ghost use Rattle.std.specs.Prelude.{◌≡◌};
ghost use Rattle.grammar.specs.Refusals.{number_of};

use grammar::refusal::Refusal;
use std::error::Error;
use std::fmt;

// The refusal, and the place of the refused byte, or the text's length where the end was refused.
#[derive(Clone, Copy, PartialEq, Eq, Debug)]
pub struct ReadFault {
    pub refusal: Refusal,
    pub place: usize,
}

impl ReadFault {
    // The number of its refusal.
    pub fn number(&self) -> u8
        ensures { result ≡ number_of self.now.refusal }
    {
        self.refusal.number()
    }
}

impl fmt::Display for ReadFault {
    fn fmt<W: fmt::Write>(&self, f: &mut fmt::Formatter<W>) -> fmt::Result {
        let number = self.number();
        let place = self.place;
        write!(f, "{number} at {place}")
    }
}

impl Error for ReadFault {}
