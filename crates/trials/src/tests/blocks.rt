// As many open blocks, tokens held back and tokens of a job as there may be.
use crate::tests::{block, ended, gap, opened, outcome_of, settled};
use direct::fault::DirectFault;
use direct::job::{DirectJob, Drained};
use layout::margin::Margin;
use layout::token::{Anchor, Fold, Opening};
use printer::fault::PrinterFault;
use sink::sink::Sink;
use sink::slip::Slip;
use std::test::Fail;

// Opens n blocks, one in the other, up to the first Opening that is refused: its fault. A job drained
// before takes the receipts, so the blocks stay open.
fn open_many<S: Sink, D>(
    job: &mut DirectJob<S>,
    drained: &Drained<D>,
    n: u8,
) -> Option<DirectFault> {
    for _ in 0..n {
        match job.open_block(block(0)) {
            Ok(receipt) => {
                let _ = drained.settle(receipt);
            }
            Err(fault) => return Some(fault),
        }
    }
    None
}

#[test]
fn open_at_once(rt: HostRuntime) -> Result<(), Fail> {
    let margin = Margin::try_from(16)?;
    let drained = DirectJob::open(Slip::new(), margin, 1).drain();
    let mut job = DirectJob::open(Slip::new(), margin, 2);
    let most = open_many(&mut job, &drained, 64);
    let one_more = open_many(&mut job, &drained, 1);
    let text = job.text(b"a");
    let outcome = outcome_of(job);
    let _ = drained.into_sink();
    assert_eq!(rt; most, None);
    assert_eq!(rt; one_more, Some(DirectFault::Blocks { token: 64 }));
    assert_eq!(rt; text, Ok(()));
    assert_eq!(rt; outcome, Err(DirectFault::Unended { token: 65 }));
    Ok(())
}

// Opens n blocks, one behind the other, each empty.
fn in_a_row<S: Sink>(job: &mut DirectJob<S>, n: u8) {
    for _ in 0..n {
        let block = opened(job);
        let _ = ended(job, block);
    }
}

#[test]
fn held_back(rt: HostRuntime) -> Result<(), Fail> {
    let margin = Margin::try_from(16)?;
    let mut job = DirectJob::open(Slip::new(), margin, 1);
    in_a_row(&mut job, 191);
    let second_last = job.text(b"a");
    let last = job.text(b"b");
    let one_more = job.text(b"c");
    let standing = job.length();
    let outcome = outcome_of(job);
    let fault = DirectFault::Printing(PrinterFault::Full { token: 384 });
    assert_eq!(rt; second_last, Ok(()));
    assert_eq!(rt; last, Ok(()));
    assert_eq!(rt; one_more, Err(fault));
    assert_eq!(rt; standing, 0);
    assert_eq!(rt; outcome, Err(fault));
    Ok(())
}

// Breaks of no blanks, n of them.
fn breaks<S: Sink>(job: &mut DirectJob<S>, n: u32) -> Result<(), DirectFault> {
    for _ in 0..n {
        job.break_at(gap(0, 0))?;
    }
    Ok(())
}

// Behind a Text that is wider than the margin the first Break is a newline. Each other fits where it
// stands, and writes nothing.
#[test]
fn tokens_of_a_job(rt: HostRuntime) -> Result<(), Fail> {
    let margin = Margin::try_from(16)?;
    let mut job = DirectJob::open(Slip::new(), margin, 1);
    let block = job
        .open_block(Opening {
            offset: 0,
            fold: Fold::Each,
            anchor: Anchor::Indent,
        })
        .ok();
    let text = job.text(b"gross weight (kg)");
    let taken = breaks(&mut job, 999_998);
    let one_more = job.text(b"");
    let standing = job.length();
    let drained = job.drain();
    let outcome = settled(&drained, block);
    let _ = drained.into_sink();
    let fault = DirectFault::Tokens { token: 1_000_000 };
    assert_eq!(rt; text, Ok(()));
    assert_eq!(rt; taken, Ok(()));
    assert_eq!(rt; one_more, Err(fault));
    assert_eq!(rt; standing, 18);
    assert_eq!(rt; outcome, Some(Err(fault)));
    Ok(())
}
