// What ends a print: too many tokens held back, or a sink that refuses.
ghost use Rattle.std.specs.Prelude.{◌≡◌};
ghost use Rattle.printer.specs.Faults.{numbered, number_of, layer_of, token_of};

use sink::fault::SinkFault;
use std::error::Error;
use std::fmt;

#[derive(Clone, Copy, PartialEq, Eq, Debug)]
pub enum PrinterFault {
    // 384 tokens are held back already: the refused token's number.
    Full { token: u64 },
    // The sink's fault, whole, and the number of the token not wholly written.
    Sink { fault: SinkFault, token: u64 },
}

impl PrinterFault {
    // The fault's number: 7, or the sink's.
    pub fn number(&self) -> u8
        ensures { result ≡ number_of self.now }
    {
        match self {
            PrinterFault::Full { token: _ } => 7,
            PrinterFault::Sink { fault, token: _ } => fault.number,
        }
    }

    // The layer in which it arose: 2 for the printer, 3 for the sink.
    pub fn layer(&self) -> u8
        ensures { result ≡ layer_of self.now }
    {
        match self {
            PrinterFault::Full { token: _ } => 2,
            PrinterFault::Sink { fault: _, token: _ } => 3,
        }
    }

    // The number of the token refused, or not wholly written.
    pub fn token(&self) -> u64
        ensures { result ≡ token_of self.now }
    {
        match self {
            PrinterFault::Full { token } | PrinterFault::Sink { fault: _, token } => *token,
        }
    }
}

// What a sink's write of that token comes to.
pub fn at_token(written: Result<(), SinkFault>, token: u64) -> Result<(), PrinterFault>
    ensures { result ≡ numbered token written }
{
    written.map_err(|fault| PrinterFault::Sink { fault, token })
}

impl fmt::Display for PrinterFault {
    fn fmt<W: fmt::Write>(&self, f: &mut fmt::Formatter<W>) -> fmt::Result {
        let number = self.number();
        let token = self.token();
        write!(f, "{number} at token {token}")
    }
}

impl Error for PrinterFault {}
