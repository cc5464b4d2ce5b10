// Why a direct call, or the drain, was refused.
ghost use Rattle.std.specs.Prelude.{◌≡◌};
ghost use Rattle.direct.specs.declared.fault.DirectFault.TheVariants.{Printing};
ghost use Rattle.direct.specs.Faults.{number_of, layer_of, token_of};

use printer::fault::PrinterFault;
use std::error::Error;
use std::fmt;

#[derive(Clone, Copy, PartialEq, Eq, Debug)]
pub enum DirectFault {
    // 1,000,000 tokens were given.
    Tokens { token: u64 },
    // A number is out of range, or a Text has 0 or over 255 bytes, or one under 0x20.
    Range { token: u64 },
    // The receipt is not the innermost open block's.
    Receipt { token: u64 },
    // A 65th open block.
    Blocks { token: u64 },
    // A block is open at the drain.
    Unended { token: u64 },
    // The printer's fault, whole.
    Printing(PrinterFault),
}

impl From<PrinterFault> for DirectFault {
    ghost from_gives = { λ f r. r ≡ Printing f };

    fn from(f: PrinterFault) -> DirectFault {
        DirectFault::Printing(f)
    }
}

impl DirectFault {
    // The fault's number.
    pub fn number(&self) -> u8
        ensures { result ≡ number_of self.now }
    {
        match self {
            DirectFault::Tokens { token: _ } => 2,
            DirectFault::Range { token: _ } => 8,
            DirectFault::Receipt { token: _ } => 9,
            DirectFault::Blocks { token: _ } => 5,
            DirectFault::Unended { token: _ } => 6,
            DirectFault::Printing(fault) => fault.number(),
        }
    }

    // The layer in which it arose: 2 for direct calls and the printer, 3 for the sink.
    pub fn layer(&self) -> u8
        ensures { result ≡ layer_of self.now }
    {
        match self {
            DirectFault::Printing(fault) => fault.layer(),
            _ => 2,
        }
    }

    // The number of the token refused, or not wholly written; the count of tokens at the drain.
    pub fn token(&self) -> u64
        ensures { result ≡ token_of self.now }
    {
        match self {
            DirectFault::Tokens { token }
            | DirectFault::Range { token }
            | DirectFault::Receipt { token }
            | DirectFault::Blocks { token }
            | DirectFault::Unended { token } => *token,
            DirectFault::Printing(fault) => fault.token(),
        }
    }
}

impl fmt::Display for DirectFault {
    fn fmt<W: fmt::Write>(&self, f: &mut fmt::Formatter<W>) -> fmt::Result {
        let number = self.number();
        let token = self.token();
        write!(f, "{number} at token {token}")
    }
}

impl Error for DirectFault {}
