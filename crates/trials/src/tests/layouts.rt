// Layouts at margin 16 of a Text, then a block with Texts and Breaks of one blank between them.
use direct::fault::DirectFault;
use direct::job::DirectJob;
use layout::margin::Margin;
use layout::token::{Anchor, Break, Fold, Opening};
use sink::sink::Sink;
use sink::window::Window;
use std::process::Abort;
use std::test::Fail;

// The Texts in a row of grades, which blanks part, with Breaks of that offset.
fn grades<S: Sink>(job: &mut DirectJob<S>, row: &str, offset: i8) -> Result<(), DirectFault> {
    let mut first = true;
    for grade in row.split(' ') {
        if !first {
            job.break_at(Break { blanks: 1, offset })?;
        }
        first = false;
        job.text(grade.as_bytes())?;
    }
    Ok(())
}

fn load<S: Sink>(
    job: &mut DirectJob<S>,
    lead: &str,
    block: Opening,
    row: &str,
    offset: i8,
) -> Result<(), DirectFault> {
    job.text(lead.as_bytes())?;
    let receipt = job.open_block(block)?;
    let inside = grades(job, row, offset);
    job.end_block(receipt)?;
    inside
}

fn lays(
    rt: &impl Abort,
    lead: &str,
    block: Opening,
    row: &str,
    offset: i8,
    print: &str,
) -> Result<(), Fail> {
    let margin = Margin::try_from(16)?;
    let mut buffer = [0u8; 64];
    let mut job = DirectJob::open(Window::new(&mut buffer), margin, 1);
    let taken = load(&mut job, lead, block, row, offset);
    let window = job.drain().into_sink();
    assert_eq!(rt; taken, Ok(()));
    assert!(rt; window.text() == print.as_bytes(), "{}", print);
    Ok(())
}

const ROW: &str = "paper glass board tin";

#[test]
fn folds_and_anchors(rt: HostRuntime) -> Result<(), Fail> {
    for (fold, anchor, print) in [
        (
            Fold::All,
            Anchor::Indent,
            "net paper\n  glass\n  board\n  tin\n",
        ),
        (
            Fold::All,
            Anchor::Column,
            "net paper\n      glass\n      board\n      tin\n",
        ),
        (Fold::Each, Anchor::Indent, "net paper glass\n  board tin\n"),
        (
            Fold::Each,
            Anchor::Column,
            "net paper glass\n      board tin\n",
        ),
    ] {
        let block = Opening {
            offset: 2,
            fold,
            anchor,
        };
        lays(&rt, "net ", block, ROW, 0, print)?;
    }
    Ok(())
}

#[test]
fn at_the_margin(rt: HostRuntime) -> Result<(), Fail> {
    let all = Opening {
        offset: 2,
        fold: Fold::All,
        anchor: Anchor::Indent,
    };
    lays(&rt, "net ", all, "paper boards", 0, "net paper boards\n")?;
    lays(
        &rt,
        "net ",
        all,
        "paper bottles",
        0,
        "net paper\n  bottles\n",
    )
}

// The offset of the block, how it folds, its anchor, and the offset of its Breaks.
#[test]
fn offsets(rt: HostRuntime) -> Result<(), Fail> {
    for (lead, offset, fold, anchor, breaks, print) in [
        (
            "weights ",
            -6,
            Fold::All,
            Anchor::Column,
            0,
            "weights paper\n  glass\n  board\n  tin\n",
        ),
        (
            "weights ",
            -6,
            Fold::Each,
            Anchor::Indent,
            0,
            "weights paper\nglass board tin\n",
        ),
        (
            "net ",
            3,
            Fold::All,
            Anchor::Column,
            -2,
            "net paper\n     glass\n     board\n     tin\n",
        ),
        (
            "net ",
            16,
            Fold::All,
            Anchor::Column,
            0,
            "net paper\n        glass\n        board\n        tin\n",
        ),
    ] {
        let block = Opening {
            offset,
            fold,
            anchor,
        };
        lays(&rt, lead, block, ROW, breaks, print)?;
    }
    Ok(())
}

#[test]
fn wider_than_the_margin(rt: HostRuntime) -> Result<(), Fail> {
    let each = Opening {
        offset: 2,
        fold: Fold::Each,
        anchor: Anchor::Column,
    };
    lays(
        &rt,
        "net ",
        each,
        "a paper of-many-more-grades tin",
        0,
        "net a paper\n      of-many-more-grades\n      tin\n",
    )
}
