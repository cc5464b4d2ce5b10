// Why a byte, or the end, is refused.
ghost use Rattle.std.specs.Prelude.{◌≡◌};
ghost use Rattle.grammar.specs.Refusals.{number_of};

use std::error::Error;
use std::fmt;

// Each refusal has a number.
#[derive(Clone, Copy, PartialEq, Eq, Debug)]
pub enum Refusal {
    // no document goes on with this byte
    NoDocument = 3,
    // the word would have more than 255 bytes
    LongWord = 4,
    // more than 64 brackets would be open
    ManyBrackets = 5,
    // the document is not at its end
    Unfinished = 6,
}

impl Refusal {
    // The refusal's number.
    pub fn number(&self) -> u8
        ensures { result ≡ number_of self.now }
    {
        *self as u8
    }
}

impl fmt::Display for Refusal {
    fn fmt<W: fmt::Write>(&self, f: &mut fmt::Formatter<W>) -> fmt::Result {
        let number = self.number();
        write!(f, "{number}")
    }
}

impl Error for Refusal {}
