// Sinks that are full at the last byte or before, and a sink that two jobs print into.
use crate::tests::{block, full, gap, outcome_of, whole};
use direct::fault::DirectFault;
use direct::job::DirectJob;
use direct::outcome::Outcome;
use layout::margin::Margin;
use sink::sink::Sink;
use sink::slip::Slip;
use sink::window::Window;
use std::process::Abort;
use std::test::Fail;

// The record {"tare":[12,7]}, up to the first refusal. An Ending takes each receipt, on a broken job too.
fn tare<S: Sink>(job: &mut DirectJob<S>) -> Result<(), DirectFault> {
    let receipt = job.open_block(block(2))?;
    let inside = members(job);
    job.end_block(receipt)?;
    inside
}

fn members<S: Sink>(job: &mut DirectJob<S>) -> Result<(), DirectFault> {
    job.text(b"{")?;
    job.break_at(gap(0, 0))?;
    job.text(b"\"tare\"")?;
    job.text(b": ")?;
    let receipt = job.open_block(block(2))?;
    let inside = items(job);
    job.end_block(receipt)?;
    inside?;
    job.break_at(gap(0, -2))?;
    job.text(b"}")
}

fn items<S: Sink>(job: &mut DirectJob<S>) -> Result<(), DirectFault> {
    job.text(b"[")?;
    job.break_at(gap(0, 0))?;
    job.text(b"12")?;
    job.text(b",")?;
    job.break_at(gap(1, 0))?;
    job.text(b"7")?;
    job.break_at(gap(0, -2))?;
    job.text(b"]")
}

// What the calls and the drain answer, and the length standing between.
#[derive(Clone, Copy, PartialEq, Eq, Debug)]
struct Course {
    taken: Result<(), DirectFault>,
    standing: usize,
    outcome: Outcome,
}

// Prints the record into a window over that buffer, which then holds as much of it as there is room for.
fn window_over(rt: &impl Abort, buffer: &mut [u8]) -> Result<Course, Fail> {
    let print = *b"{\n  \"tare\": [\n    12,\n    7\n  ]\n}\n";
    let room = buffer.len().min(34);
    let margin = Margin::try_from(16)?;
    let mut job = DirectJob::open(Window::new(buffer), margin, 7);
    let taken = tare(&mut job);
    let standing = job.length();
    let drained = job.drain();
    let outcome = drained.outcome();
    let window = drained.into_sink();
    assert!(rt; window.text() == &print[0..room]);
    Ok(Course {
        taken,
        standing,
        outcome,
    })
}

#[test]
fn windows(rt: HostRuntime) -> Result<(), Fail> {
    let (taken, standing) = (Ok(()), 31);
    let outcome = whole(34, 6, 11);
    assert_eq!(rt;
        window_over(&rt, &mut [0; 34])?,
        Course {
            taken,
            standing,
            outcome,
        }
    );
    let outcome = Err(full(1, 33, 18));
    assert_eq!(rt;
        window_over(&rt, &mut [0; 33])?,
        Course {
            taken,
            standing,
            outcome,
        }
    );
    let cut = full(1, 30, 13);
    let (taken, standing, outcome) = (Err(cut), 30, Err(cut));
    assert_eq!(rt;
        window_over(&rt, &mut [0; 30])?,
        Course {
            taken,
            standing,
            outcome,
        }
    );
    Ok(())
}

// Texts with Breaks between, n of them: each on a line of its own.
fn lines<S: Sink>(job: &mut DirectJob<S>, n: u8) -> Result<(), DirectFault> {
    job.text(b"a")?;
    for _ in 1..n {
        job.break_at(gap(0, 0))?;
        job.text(b"a")?;
    }
    Ok(())
}

// The outcome of n lines on a slip.
fn slip_of(rt: &impl Abort, n: u8) -> Result<Outcome, Fail> {
    let margin = Margin::try_from(16)?;
    let mut job = DirectJob::open(Slip::new(), margin, 1);
    let taken = lines(&mut job, n);
    let outcome = outcome_of(job);
    assert_eq!(rt; taken, Ok(()));
    Ok(outcome)
}

#[test]
fn slips(rt: HostRuntime) -> Result<(), Fail> {
    assert_eq!(rt; slip_of(&rt, 15)?, whole(30, 15, 1));
    assert_eq!(rt; slip_of(&rt, 16)?, Err(full(2, 31, 31)));
    Ok(())
}

#[test]
fn row_of_a_slip(rt: HostRuntime) -> Result<(), Fail> {
    let margin = Margin::try_from(120)?;
    let mut job = DirectJob::open(Slip::new(), margin, 1);
    let taken = job.text(&[b'a'; 41]);
    let drained = job.drain();
    let outcome = drained.outcome();
    let slip = drained.into_sink();
    assert_eq!(rt; taken, Err(full(2, 40, 0)));
    assert_eq!(rt; outcome, Err(full(2, 40, 0)));
    assert_eq!(rt; slip.row(0), Some([b'a'; 40].as_slice()));
    Ok(())
}

// Whether the row of that number is these bytes.
fn row_is(slip: &Slip, number: usize, bytes: &[u8]) -> bool {
    slip.row(number) == Some(bytes)
}

#[test]
fn one_behind_the_other(rt: HostRuntime) -> Result<(), Fail> {
    let margin = Margin::try_from(16)?;
    let mut first = DirectJob::open(Slip::new(), margin, 1);
    let paper = first.text(b"paper");
    let drained = first.drain();
    let mut second = DirectJob::open(drained.into_sink(), margin, 2);
    let glass = second.text(b"glass");
    let length = second.length();
    let drained = second.drain();
    let outcome = drained.outcome();
    let slip = drained.into_sink();
    assert_eq!(rt; paper, Ok(()));
    assert_eq!(rt; glass, Ok(()));
    assert_eq!(rt; length, 5);
    assert_eq!(rt; outcome, whole(6, 1, 5));
    assert!(rt; row_is(&slip, 0, b"paper"));
    assert!(rt; row_is(&slip, 1, b"glass"));
    Ok(())
}

#[test]
fn no_tokens(rt: HostRuntime) -> Result<(), Fail> {
    let margin = Margin::try_from(16)?;
    let drained = DirectJob::open(Slip::new(), margin, 1).drain();
    let outcome = drained.outcome();
    let slip = drained.into_sink();
    assert_eq!(rt; outcome, whole(0, 0, 0));
    assert!(rt; slip.row(1).is_none());
    Ok(())
}
