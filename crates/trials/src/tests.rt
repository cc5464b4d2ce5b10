// What the trials share.
use direct::fault::DirectFault;
use direct::job::{DirectJob, Drained};
use direct::outcome::{Outcome, Whole};
use direct::receipt::Receipt;
use layout::token::{Anchor, Break, Fold, Opening};
use printer::fault::PrinterFault;
use sink::fault::SinkFault;
use sink::sink::Sink;

mod blocks;
mod layouts;
mod margins;
mod ranges;
mod receipts;
mod sinks;

// A block with fold all and anchor indent.
pub(crate) fn block(offset: i8) -> Opening {
    Opening {
        offset,
        fold: Fold::All,
        anchor: Anchor::Indent,
    }
}

// A Break.
pub(crate) fn gap(blanks: u8, offset: i8) -> Break {
    Break { blanks, offset }
}

// Opens a block with offset 0.
pub(crate) fn opened<S: Sink>(job: &mut DirectJob<S>) -> Option<Receipt> {
    job.open_block(block(0)).ok()
}

// Ends a block, if it was opened, and gives the answer.
pub(crate) fn ended<S: Sink>(
    job: &mut DirectJob<S>,
    block: Option<Receipt>,
) -> Option<Result<(), DirectFault>> {
    block.map(|receipt| job.end_block(receipt))
}

// Hands a drained job the receipt of a block that was not ended, and gives what it repeats.
pub(crate) fn settled<S>(job: &Drained<S>, block: Option<Receipt>) -> Option<Outcome> {
    block.map(|receipt| job.settle(receipt))
}

// Drains a job and lets its sink go: the outcome.
pub(crate) fn outcome_of<S: Sink + Drop>(job: DirectJob<S>) -> Outcome {
    let drained = job.drain();
    let outcome = drained.outcome();
    let _ = drained.into_sink();
    outcome
}

// The outcome of a whole print.
pub(crate) fn whole(bytes: usize, newlines: u64, widest: u16) -> Outcome {
    Ok(Whole {
        bytes,
        newlines,
        widest,
    })
}

// The fault of a job whose sink, of that kind, was full when `text` bytes stood.
pub(crate) fn full(kind: u8, text: usize, token: u64) -> DirectFault {
    let fault = SinkFault {
        number: 10,
        kind,
        text,
    };
    DirectFault::Printing(PrinterFault::Sink { fault, token })
}
