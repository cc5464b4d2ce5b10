// The tokens around the Text of a word.
ghost use Rattle.std.specs.Prelude.{◌≡◌, ◌≤◌, [], length};
ghost use Rattle.grammar.specs.Meaning.{Word};
ghost use Rattle.rules.specs.Rules.{Rules, moved};
ghost use Rattle.reader.specs.Pieces.{piece_tokens};

use layout::token::Break;
use rules::place::{Expects, Move};

// The Break in front of a word, if any, and what the word does to the place.
#[derive(Clone, Copy)]
pub(crate) struct Piece {
    pub(crate) lead: Option<Break>,
    pub(crate) step: Move,
}

impl Piece {
    // What may come behind the word.
    pub(crate) fn behind(self) -> Expects
        ensures { result ≡ (moved self.step []).expects }
    {
        match self.step {
            Move::Within(expects) => expects,
            Move::Opens(_) => Expects::First,
            Move::Closes => Expects::After,
        }
    }

    // How many tokens these are, with the Text.
    pub(crate) fn count(self) -> u32
        ensures count { (r : Rules) (w : Word) → result ≡ length (piece_tokens r self w) }
        ensures few { result ≤ 3 }
    {
        let around = match self.step {
            Move::Within(_) => 0,
            Move::Opens(_) | Move::Closes => 1,
        };
        1 + self.lead.is_some() as u32 + around
    }
}
