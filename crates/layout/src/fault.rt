// Why no margin was made.
ghost use Rattle.std.specs.Prelude.{◌≡◌};

use std::error::Error;
use std::fmt;

// No margin has as many columns as were asked for.
#[derive(Clone, Copy, PartialEq, Eq, Debug)]
pub struct MarginFault {
    pub columns: u32,
}

impl MarginFault {
    ghost use Rattle.layout.specs.Faults.{number_of};

    // The number of this refusal.
    pub fn number(&self) -> u8
        ensures { result ≡ number_of self.now }
    {
        1
    }
}

impl fmt::Display for MarginFault {
    fn fmt<W: fmt::Write>(&self, f: &mut fmt::Formatter<W>) -> fmt::Result {
        let number = self.number();
        let columns = self.columns;
        write!(f, "refused by {number}: no margin has {columns} columns")
    }
}

impl Error for MarginFault {}
