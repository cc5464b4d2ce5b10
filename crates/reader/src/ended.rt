// What is told of a word that ended.
ghost use Rattle.std.specs.Prelude.{◌≡◌, not, OnSome};
ghost use Rattle.rules.specs.Rules.{loose};
ghost use Rattle.reader.specs.Pieces.{own_word};
ghost use Rattle.reader.specs.Endings.{described, described_at};

use crate::over::Own;
use rules::language::Language;
use rules::word::Kind;
use std::slice;

// Its kind, and its length in bytes.
#[derive(Clone, Copy)]
pub struct Ended {
    pub kind: Kind,
    pub len: usize,
}

impl Ended {
    // Is its last byte the byte that ended it? So it is of a string and of a word of one byte, while a
    // number, a literal or an atom is over before that byte.
    pub fn own(self) -> bool
        ensures { result ≡ not (loose self.kind) }
    {
        match self.kind {
            Kind::Opening | Kind::Closing | Kind::Comma | Kind::Colon | Kind::Text => true,
            Kind::Number | Kind::Literal | Kind::Atom => false,
        }
    }
}

// What is told of a word; nothing of one without bytes.
pub(crate) fn describe<L: Language>(word: &[u8]) -> Option<Ended>
    ensures { result ≡ described L.Language.rules word.now }
{
    let first = word.first()?;
    Some(Ended {
        kind: L::kind(*first),
        len: word.len(),
    })
}

// What is told of the byte that is a word of its own, if there is one and this number is 0.
pub(crate) fn describe_own<L: Language>(own: Option<Own>, number: u32) -> Option<Ended>
    ensures told { result ≡ described_at L.Language.rules (own_word own) number }
    ensures few { OnSome result (number ≡ 0) }
{
    let own = own.filter(|_| number == 0)?;
    describe::<L>(slice::from_ref(&own.byte))
}
