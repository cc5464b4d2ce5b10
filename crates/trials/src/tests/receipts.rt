// Receipts that meet no block, and blocks that are not ended.
use crate::tests::{ended, opened, outcome_of, settled};
use direct::fault::DirectFault;
use direct::job::DirectJob;
use layout::margin::Margin;
use sink::slip::Slip;
use std::test::Fail;

#[test]
fn of_another_job(rt: HostRuntime) -> Result<(), Fail> {
    let margin = Margin::try_from(16)?;
    let mut job = DirectJob::open(Slip::new(), margin, 7);
    let mut other = DirectJob::open(Slip::new(), margin, 8);
    let own = opened(&mut job);
    let foreign = opened(&mut other);
    let refused = ended(&mut job, foreign);
    let later = job.text(b"paper");
    let asked = job.fault();
    let drained = job.drain();
    let repeated = settled(&drained, own);
    let slip = drained.into_sink();
    let outcome = outcome_of(other);
    let fault = DirectFault::Receipt { token: 1 };
    assert_eq!(rt; refused, Some(Err(fault)));
    assert_eq!(rt; later, Err(fault));
    assert_eq!(rt; asked, Some(fault));
    assert_eq!(rt; repeated, Some(Err(fault)));
    assert_eq!(rt; slip.row(0), Some(b"".as_slice()));
    assert_eq!(rt; outcome, Err(DirectFault::Unended { token: 1 }));
    Ok(())
}

#[test]
fn of_an_outer_block(rt: HostRuntime) -> Result<(), Fail> {
    let margin = Margin::try_from(16)?;
    let mut job = DirectJob::open(Slip::new(), margin, 7);
    let outer = opened(&mut job);
    let inner = opened(&mut job);
    let refused = ended(&mut job, outer);
    let repeated = ended(&mut job, inner);
    let outcome = outcome_of(job);
    let fault = DirectFault::Receipt { token: 2 };
    assert_eq!(rt; refused, Some(Err(fault)));
    assert_eq!(rt; repeated, Some(Err(fault)));
    assert_eq!(rt; outcome, Err(fault));
    Ok(())
}

#[test]
fn not_ended(rt: HostRuntime) -> Result<(), Fail> {
    let margin = Margin::try_from(16)?;
    let mut job = DirectJob::open(Slip::new(), margin, 7);
    let block = opened(&mut job);
    let text = job.text(b"(");
    let drained = job.drain();
    let repeated = settled(&drained, block);
    let slip = drained.into_sink();
    assert_eq!(rt; text, Ok(()));
    assert_eq!(rt; repeated, Some(Err(DirectFault::Unended { token: 2 })));
    assert_eq!(rt; slip.row(0), Some(b"".as_slice()));
    Ok(())
}
