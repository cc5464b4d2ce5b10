// Words at their place.
ghost use Rattle.std.specs.Prelude.{◌≡◌, reverse};
ghost use Rattle.rules.specs.Rules.{innermost, admits};
ghost use Rattle.reader.specs.Pieces.{piece_at};
ghost use Rattle.reader.specs.State.{expecting, Around};
ghost use Rattle.reader.specs.Goes.{Gone};

use crate::machine::Machine;
use crate::piece::Piece;
use crate::reader::MOST_OPEN;
use arrayvec::ArrayVec;
use grammar::refusal::Refusal;
use rules::language::Language;
use rules::place::{Bracket, Expects, Move, Spot};
use rules::word::Inside;

impl<L: Language> Machine<L> {
    // Where a word would stand where this may come.
    fn spot(&self, expects: Expects) -> Spot
        ensures { result ≡ record { expects = expects; innermost = innermost self.now.place.brackets } }
    {
        Spot {
            expects,
            innermost: self.brackets.last().copied(),
        }
    }

    // May a word with this first byte stand where this may come?
    pub(crate) fn admits(&self, expects: Expects, first: u8) -> bool
        ensures { result ≡ admits L.Language.rules (expecting expects self.now.place) first }
    {
        L::moves(self.spot(expects), first).is_some()
    }

    // What stands around a word with this first byte where this may come; none where it may not stand there.
    pub(crate) fn piece(&self, expects: Expects, first: u8) -> Option<Piece>
        ensures { result ≡ piece_at L.Language.rules (expecting expects self.now.place) first }
    {
        let lead = L::lead(expects, first);
        L::moves(self.spot(expects), first).map(|step| Piece { lead, step })
    }

    // What stands around the word under way, which is collected: it may stand at its place.
    pub(crate) fn around(&self, inside: Inside) -> Piece
        requires under { self.now.inside ≡ Some inside }
        requires settled { self.now.waiting ≡ None }
        ensures { Around L.Language.rules self.now inside result }
    {
        let first = self.word.as_slice()[0];
        self.piece(self.expects, first).unwrap()
    }
}

// Opens or closes a bracket, as a word does, unless too many would be open.
pub(crate) fn go(brackets: &mut ArrayVec<Bracket, MOST_OPEN>, step: Move) -> Result<(), Refusal>
    ensures { Gone step (reverse brackets.old.items) (reverse brackets.new.items) result }
{
    let full = brackets.is_full();
    match step {
        Move::Within(_) => Ok(()),
        Move::Opens(_) if full => Err(Refusal::ManyBrackets),
        Move::Opens(bracket) => {
            brackets.push(bracket);
            Ok(())
        }
        Move::Closes => {
            let _ = brackets.pop();
            Ok(())
        }
    }
}
