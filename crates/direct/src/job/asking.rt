// What an open job and a drained one answer of themselves.
ghost use Rattle.std.specs.Prelude.{◌≡◌, ◌-◌, ◌^◌, ◌<◌, List, length};
ghost use Rattle.direct.specs.Calls.{Call};
ghost use Rattle.direct.specs.Course.{Start, course, standing};
ghost use Rattle.direct.specs.Standing.{seen, Stands, fault_of};

use crate::fault::DirectFault;
use crate::job::{DirectJob, Drained};
use crate::outcome::Outcome;
use sink::sink::Sink;

impl<S: Sink> DirectJob<S> {
    // The length of the text standing.
    pub fn length(&self) -> usize
        ensures { (s : Start) (calls : List Call) → Stands s calls (seen S.Sink.text S.Sink.rule self.now) → result ≡ length (standing s (course s calls)) }
    {
        self.written()
    }

    // How many bytes stand behind the older text.
    pub(crate) fn written(&self) -> usize
        ensures value { result ≡ length (S.Sink.text self.now.sink) - self.now.printer.older }
        ensures counts { length (S.Sink.text self.now.sink) < 2 ^ 64 }
    {
        self.sink.len().saturating_sub(self.printer.older())
    }

    // The fault by which the job broke, if it did.
    pub fn fault(&self) -> Option<DirectFault>
        ensures { (s : Start) (calls : List Call) → Stands s calls (seen S.Sink.text S.Sink.rule self.now) → result ≡ fault_of (course s calls) }
    {
        self.fault
    }
}

impl<S> Drained<S> {
    // What the job came to.
    pub fn outcome(&self) -> Outcome
        ensures { result ≡ self.now.outcome }
    {
        self.outcome
    }
}
