// A word of a text, by its kind.
ghost use Rattle.std.specs.Prelude.{◌≡◌};
ghost use Rattle.words.specs.Handed.{kind_of, placed_of};

use rules::word::Kind;

// Each holds its part of the text, and the place of its first byte. It is a rule of the project that callers
// match a word by its kind, so that one who forgets a kind is told so: each kind is a case of its own.
#[derive(Clone, Copy, PartialEq, Eq, Debug)]
pub enum Word<'a> {
    Opening { part: &'a [u8], place: usize },
    Closing { part: &'a [u8], place: usize },
    Comma { part: &'a [u8], place: usize },
    Colon { part: &'a [u8], place: usize },
    Text { part: &'a [u8], place: usize },
    Number { part: &'a [u8], place: usize },
    Literal { part: &'a [u8], place: usize },
    Atom { part: &'a [u8], place: usize },
}

// The word of this kind.
pub(crate) fn word_of<'a>(kind: Kind, part: &'a [u8], place: usize) -> Word<'a>
    ensures kind { kind_of result ≡ kind }
    ensures placed { placed_of result ≡ record { place = place; word = part.now } }
{
    match kind {
        Kind::Opening => Word::Opening { part, place },
        Kind::Closing => Word::Closing { part, place },
        Kind::Comma => Word::Comma { part, place },
        Kind::Colon => Word::Colon { part, place },
        Kind::Text => Word::Text { part, place },
        Kind::Number => Word::Number { part, place },
        Kind::Literal => Word::Literal { part, place },
        Kind::Atom => Word::Atom { part, place },
    }
}

impl<'a> Word<'a> {
    // The word's kind.
    pub fn kind(self) -> Kind
        ensures { result ≡ kind_of self.entry }
    {
        match self {
            Word::Opening { .. } => Kind::Opening,
            Word::Closing { .. } => Kind::Closing,
            Word::Comma { .. } => Kind::Comma,
            Word::Colon { .. } => Kind::Colon,
            Word::Text { .. } => Kind::Text,
            Word::Number { .. } => Kind::Number,
            Word::Literal { .. } => Kind::Literal,
            Word::Atom { .. } => Kind::Atom,
        }
    }

    // Its bytes, a part of the text.
    pub fn part(self) -> &'a [u8]
        ensures { result.now ≡ (placed_of self.entry).word }
    {
        match self {
            Word::Opening { part, .. }
            | Word::Closing { part, .. }
            | Word::Comma { part, .. }
            | Word::Colon { part, .. }
            | Word::Text { part, .. }
            | Word::Number { part, .. }
            | Word::Literal { part, .. }
            | Word::Atom { part, .. } => part,
        }
    }

    // The place of its first byte in the text.
    pub fn place(self) -> usize
        ensures { result ≡ (placed_of self.entry).place }
    {
        match self {
            Word::Opening { place, .. }
            | Word::Closing { place, .. }
            | Word::Comma { place, .. }
            | Word::Colon { place, .. }
            | Word::Text { place, .. }
            | Word::Number { place, .. }
            | Word::Literal { place, .. }
            | Word::Atom { place, .. } => place,
        }
    }
}
