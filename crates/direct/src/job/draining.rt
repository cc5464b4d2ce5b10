// The drain of a job, and what a drained job gives.
ghost use Rattle.std.specs.Prelude.{◌≡◌, List, ◌++◌};
ghost use Rattle.direct.specs.Calls.{Call};
ghost use Rattle.direct.specs.Course.{Start, course, outcome as outcome_of, left};
ghost use Rattle.direct.specs.Laws.{WholeExactly, CutLongest};
ghost use Rattle.direct.specs.Standing.{seen, Stands, Closed};

use crate::fault::DirectFault;
use crate::job::{DirectJob, Drained};
use crate::outcome::{Outcome, Whole};
use crate::receipt::Receipt;
use sink::sink::Sink;

impl<S: Sink> DirectJob<S> {
    // Ends the document and turns the open job into a drained one.
    pub fn drain(mut self) -> Drained<S>
        ensures rule { S.Sink.rule result.sink ≡ S.Sink.rule self.sink }
        ensures later { S.Sink.later self.sink result.sink }
        ensures drains { (s : Start) (calls : List Call) → Stands s calls (seen S.Sink.text S.Sink.rule self) → (result.outcome ≡ outcome_of s (course s calls)) × (S.Sink.text result.sink ≡ s.older ++ left s (course s calls)) }
        ensures whole { (s : Start) (calls : List Call) → Stands s calls (seen S.Sink.text S.Sink.rule self) → WholeExactly s calls result.outcome }
        ensures cut { (s : Start) (calls : List Call) → Stands s calls (seen S.Sink.text S.Sink.rule self) → CutLongest s calls result.outcome (S.Sink.text result.sink) }
    {
        let outcome = self.finish();
        let DirectJob {
            sink,
            printer: _,
            number: _,
            given: _,
            blocks: _,
            fault: _,
        } = self;
        Drained { sink, outcome }
    }

    // Writes the rest of the print and its end, if no fault came and no block is open.
    fn finish(&mut self) -> Outcome
        ensures rule { S.Sink.rule self.new.sink ≡ S.Sink.rule self.old.sink }
        ensures later { S.Sink.later self.old.sink self.new.sink }
        ensures finishes { (s : Start) (calls : List Call) → Stands s calls (seen S.Sink.text S.Sink.rule self.old) → Closed s (course s calls) (S.Sink.text self.new.sink) result }
    {
        if let Some(fault) = self.fault {
            return Err(fault);
        }
        if !self.blocks.is_empty() {
            return Err(DirectFault::Unended {
                token: u64::from(self.given),
            });
        }
        self.printer.finish(&mut self.sink)?;
        Ok(Whole {
            bytes: self.written(),
            newlines: self.printer.newlines(),
            widest: self.printer.widest(),
        })
    }
}

impl<S> Drained<S> {
    // Takes a receipt whose block was not ended, and repeats the outcome.
    pub fn settle(&self, receipt: Receipt) -> Outcome
        ensures { result ≡ self.now.outcome }
    {
        let Receipt { job: _, token: _ } = receipt;
        self.outcome
    }

    // Hands the sink back.
    pub fn into_sink(self) -> S
        ensures { result ≡ self.sink }
    {
        let Drained { sink, outcome: _ } = self;
        sink
    }
}
