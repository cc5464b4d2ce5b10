// What the last byte, or the end, has ended.
ghost use Rattle.std.specs.Prelude.{◌≡◌, ◌≤◌, length};
ghost use Rattle.grammar.specs.Meaning.{Word};
ghost use Rattle.rules.specs.Rules.{Rules};
ghost use Rattle.reader.specs.Pieces.{tokens_if, ended_by, given_by};

use crate::piece::Piece;

// A byte that is a word of its own.
#[derive(Clone, Copy)]
pub(crate) struct Own {
    pub(crate) piece: Piece,
    pub(crate) byte: u8,
}

// What stands around the collected word, if it was ended; and the byte, if it is a word of its own.
#[derive(Clone, Copy, Default)]
pub(crate) struct Over {
    pub(crate) collected: Option<Piece>,
    pub(crate) own: Option<Own>,
}

// How many tokens a word has, if it was ended.
pub(crate) fn count_if(piece: Option<Piece>) -> u32
    ensures count { (r : Rules) (w : Word) → result ≡ length (tokens_if r piece w) }
    ensures few { result ≤ 3 }
{
    piece.map_or(0, |piece| piece.count())
}

impl Over {
    // How many words these are.
    pub(crate) fn words(self) -> u32
        ensures { (collected : Word) → result ≡ length (ended_by self collected) }
    {
        self.collected.is_some() as u32 + self.own.is_some() as u32
    }

    // How many tokens stand for them.
    pub(crate) fn tokens(self) -> u32
        ensures { (r : Rules) (collected : Word) → result ≡ length (given_by r self collected) }
    {
        count_if(self.collected) + self.own.map_or(0, |own| own.piece.count())
    }
}
