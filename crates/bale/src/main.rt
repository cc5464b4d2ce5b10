// The load record of a mixed bale, whose split is split again, printed by one direct job at margin 40.
//
// Each call is told with its answer and the length standing after it. The drain, the text and the
// outcome come last.
#![tactic(auto)]

use crate::desk::Desk;
use crate::load::bale;
use direct::job::DirectJob;
use direct::outcome::Outcome;
use layout::margin::Margin;
use sink::sink::Sink;
use sink::window::Window;
use std::io;

mod desk;
mod load;

// Hands in the record's tokens.
fn take_in<S: Sink>(rt: &HostRuntime, job: &mut DirectJob<S>) -> io::Result<()> {
    let mut desk = Desk::new(rt, job);
    bale(&mut desk);
    desk.leave()
}

// Tells what the job came to.
fn tell_outcome(rt: &HostRuntime, outcome: Outcome) -> io::Result<()> {
    match outcome {
        Ok(whole) => println!(rt; "whole: {whole}"),
        Err(fault) => println!(rt; "fault {fault}"),
    }
}

fn main(rt: HostRuntime) -> anyhow::Result<()> {
    let margin = Margin::try_from(40)?;
    println!(rt; "open job 7 at margin 40 on a window of 512 bytes")?;
    let mut buffer = [0u8; 512];
    let mut job = DirectJob::open(Window::new(&mut buffer), margin, 7);
    let told = take_in(&rt, &mut job);
    let drained = job.drain();
    let outcome = drained.outcome();
    let window = drained.into_sink();
    told?;
    println!(rt; "drain")?;
    let text = std::str::from_utf8(window.text())?;
    print!(rt; "{text}")?;
    tell_outcome(&rt, outcome)?;
    Ok(())
}
