// A token that no direct call refuses is laid out.
ghost use Rattle.std.specs.Prelude.{◌≡◌, ℕ, ◌<◌, ◌≤◌, List, [], ◌∷◌, ◌++◌, length};
ghost use Rattle.layout.specs.Tokens.{Token as LayoutToken};
ghost use Rattle.layout.specs.View.{view};
ghost use Rattle.direct.specs.Course.{Start, laid, after_laying};
ghost use Rattle.direct.specs.Standing.{Opened, Goes, Laid, Lay, seen};
ghost use Rattle.direct.specs.Asking.{Fit};

use crate::fault::DirectFault;
use crate::job::{DirectJob, TOKENS};
use layout::token::Token;
use sink::sink::Sink;

impl<S: Sink> DirectJob<S> {
    // Lays a token out; a refusal breaks the job.
    pub(crate) fn take(&mut self, token: Token<&[u8]>) -> Result<(), DirectFault>
        ensures opened { (s : Start) → Opened s (seen S.Sink.text S.Sink.rule self.old) → Opened s (seen S.Sink.text S.Sink.rule self.new) }
        ensures later { S.Sink.later self.old.sink self.new.sink }
        ensures table { self.new.blocks ≡ self.old.blocks }
        ensures lays { (s : Start) (ts : List LayoutToken) → Opened s (seen S.Sink.text S.Sink.rule self.old) → Goes s ts (seen S.Sink.text S.Sink.rule self.old) → Fit ts (view token.entry) → Laid s (laid s ts (view token.entry)) (seen S.Sink.text S.Sink.rule self.old) (seen S.Sink.text S.Sink.rule self.new) × (result ≡ after_laying (laid s ts (view token.entry))) }
    {
        match self.lay(token) {
            Ok(()) => Ok(()),
            Err(fault) => self.breaks(fault),
        }
    }

    // Hands a token to the printer, and counts it.
    fn lay(&mut self, token: Token<&[u8]>) -> Result<(), DirectFault>
        ensures rule { S.Sink.rule self.new.sink ≡ S.Sink.rule self.old.sink }
        ensures later { S.Sink.later self.old.sink self.new.sink }
        ensures frame { (self.new.number ≡ self.old.number) × (self.new.blocks ≡ self.old.blocks) × (self.new.fault ≡ self.old.fault) × (self.new.printer.older ≡ self.old.printer.older) }
        ensures lays { (s : Start) (ts : List LayoutToken) → Opened s (seen S.Sink.text S.Sink.rule self.old) → Goes s ts (seen S.Sink.text S.Sink.rule self.old) → Fit ts (view token.entry) → Lay s ts (view token.entry) (seen S.Sink.text S.Sink.rule self.new) result }
    {
        self.printer.give(&mut self.sink, token)?;
        self.given = self.given.saturating_add(1).min(TOKENS);
        Ok(())
    }

    // The job breaks by this fault, and answers it.
    pub(crate) fn breaks(&mut self, fault: DirectFault) -> Result<(), DirectFault>
        ensures answer { result ≡ Err fault }
        ensures job { self.new ≡ record self.old { fault = Some fault } }
    {
        self.fault = Some(fault);
        Err(fault)
    }
}
