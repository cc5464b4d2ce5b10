// What a drained job came to: a whole print, or the fault.
use crate::fault::DirectFault;
use std::fmt;

// A print that stands whole: its bytes, its newlines and its widest line, at most 65,535.
#[derive(Clone, Copy, PartialEq, Eq, Debug)]
pub struct Whole {
    pub bytes: usize,
    pub newlines: u64,
    pub widest: u16,
}

pub type Outcome = Result<Whole, DirectFault>;

impl fmt::Display for Whole {
    fn fmt<W: fmt::Write>(&self, f: &mut fmt::Formatter<W>) -> fmt::Result {
        let bytes = self.bytes;
        let newlines = self.newlines;
        let widest = self.widest;
        write!(f, "{bytes} bytes, {newlines} newlines, widest {widest}")
    }
}
