// Numbers and Texts next to their limits. What is out of range is refused by 8 and leaves no trace.
use crate::tests::{gap, outcome_of, whole};
use direct::fault::DirectFault;
use direct::job::DirectJob;
use layout::margin::Margin;
use layout::token::{Anchor, Fold, Opening};
use sink::sink::Sink;
use sink::slip::Slip;
use sink::window::Window;
use std::process::Abort;
use std::test::Fail;

fn out_of_range(token: u64) -> Result<(), DirectFault> {
    Err(DirectFault::Range { token })
}

fn try_texts<S: Sink>(rt: &impl Abort, job: &mut DirectJob<S>) -> Result<(), Fail> {
    let long = [b'a'; 256];
    assert_eq!(rt; job.text(b""), out_of_range(0));
    assert_eq!(rt; job.text(b"a"), Ok(()));
    assert_eq!(rt; job.text(&long[0..255]), Ok(()));
    assert_eq!(rt; job.text(&long), out_of_range(2));
    assert_eq!(rt; job.text(b"a\x1F"), out_of_range(2));
    assert_eq!(rt; job.text(b" \x7F\xFF"), Ok(()));
    Ok(())
}

#[test]
fn texts(rt: HostRuntime) -> Result<(), Fail> {
    let margin = Margin::try_from(16)?;
    let mut buffer = [0u8; 300];
    let mut job = DirectJob::open(Window::new(&mut buffer), margin, 1);
    let tried = try_texts(&rt, &mut job);
    let outcome = outcome_of(job);
    tried?;
    assert_eq!(rt; outcome, whole(260, 1, 259));
    Ok(())
}

fn try_breaks<S: Sink>(rt: &impl Abort, job: &mut DirectJob<S>) -> Result<(), Fail> {
    for (blanks, offset, answer) in [
        (8, 0, Ok(())),
        (9, 0, out_of_range(1)),
        (0, 16, Ok(())),
        (0, 17, out_of_range(2)),
        (0, -16, Ok(())),
        (0, -17, out_of_range(3)),
    ] {
        assert_eq!(rt; job.break_at(gap(blanks, offset)), answer);
    }
    Ok(())
}

#[test]
fn breaks(rt: HostRuntime) -> Result<(), Fail> {
    let margin = Margin::try_from(16)?;
    let mut job = DirectJob::open(Slip::new(), margin, 1);
    let tried = try_breaks(&rt, &mut job);
    let outcome = outcome_of(job);
    tried?;
    assert_eq!(rt; outcome, whole(12, 4, 8));
    Ok(())
}

// Opens a block with that offset and ends it: the Opening's answer.
fn open_at<S: Sink>(job: &mut DirectJob<S>, offset: i8) -> Result<(), DirectFault> {
    let receipt = job.open_block(Opening {
        offset,
        fold: Fold::Each,
        anchor: Anchor::Column,
    })?;
    job.end_block(receipt)
}

fn try_openings<S: Sink>(rt: &impl Abort, job: &mut DirectJob<S>) -> Result<(), Fail> {
    for (offset, answer) in [
        (16, Ok(())),
        (17, out_of_range(2)),
        (-16, Ok(())),
        (-17, out_of_range(4)),
    ] {
        assert_eq!(rt; open_at(job, offset), answer);
    }
    Ok(())
}

#[test]
fn openings(rt: HostRuntime) -> Result<(), Fail> {
    let margin = Margin::try_from(16)?;
    let mut job = DirectJob::open(Slip::new(), margin, 1);
    let tried = try_openings(&rt, &mut job);
    let outcome = outcome_of(job);
    tried?;
    assert_eq!(rt; outcome, whole(1, 1, 0));
    Ok(())
}
