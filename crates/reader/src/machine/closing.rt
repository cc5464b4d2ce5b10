// How the machine takes the end.
ghost use Rattle.std.specs.Prelude.{◌≡◌, ◌&&◌};
ghost use Rattle.rules.specs.Machine.{no_brackets};
ghost use Rattle.reader.specs.State.{expecting, state_of, reading};
ghost use Rattle.reader.specs.Goes.{Finishes};

use crate::machine::Machine;
use crate::over::Over;
use grammar::refusal::Refusal;
use rules::language::Language;
use rules::place::Expects;
use rules::word::Inside;

impl<L: Language> Machine<L> {
    // Takes the end, and writes down what it has ended, in place of what stood there.
    pub(crate) fn end(&mut self, over: &mut Over) -> Result<(), Refusal>
        ensures { Finishes L.Language.rules (state_of self.old) (reading L.Language.rules self.new over.new) result }
    {
        self.settle();
        *over = Over::default();
        let Some(inside) = self.inside else {
            return if self.may_close(self.expects) {
                Ok(())
            } else {
                Err(Refusal::Unfinished)
            };
        };
        let piece = self.around(inside);
        let behind = piece.behind();
        if !self.may_close_behind(inside, behind) {
            return Err(Refusal::Unfinished);
        }
        self.expects = behind;
        self.inside = None;
        over.collected = Some(piece);
        Ok(())
    }

    // May the collected word end here, and a document behind it, where this may come?
    fn may_close_behind(&self, inside: Inside, expects: Expects) -> bool
        ensures { result ≡ (L.Language.rules.whole inside self.now.bytes && no_brackets L.Language.rules (expecting expects self.now.place)) }
    {
        L::whole(inside, self.word.as_slice()) && self.may_close(expects)
    }

    // May a document end where this may come?
    fn may_close(&self, expects: Expects) -> bool
        ensures { result ≡ no_brackets L.Language.rules (expecting expects self.now.place) }
    {
        L::ends(expects) && self.brackets.is_empty()
    }
}
