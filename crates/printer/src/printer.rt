// The printer: the tokens held back, where writing stands, and how many tokens have passed. The sink
// is lent to each call that writes.
use pen::pen::Pen;
use scan::scan::Scan;

pub mod asking;
pub mod giving;
pub mod passing;

// What it has printed (`Prints`) stays a premise of its calls, since the unbounded numbers and the text
// written are in no field; and each call says that `older` stays, since a type speaks of one value alone.
#[derive(Clone, Copy)]
pub struct Printer {
    scan: Scan,
    pen: Pen,
    // tokens passed
    passed: u64,
    // the length of the text that the sink held before this print
    older: usize,
}
