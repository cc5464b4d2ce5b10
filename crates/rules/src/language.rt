// A language: the rules of a grammar as functions of a program.
ghost use Rattle.std.specs.Prelude.{◌≡◌};
ghost use Rattle.rules.specs.Rules.{Rules};
ghost use Rattle.rules.specs.Lawful.{Lawful};

use crate::place::{Expects, Move, Spot};
use crate::word::{Begin, Inside, Kind, Turn};
use layout::token::{Break, Opening};

pub trait Language {
    // the rules, and the proof that they are lawful
    ghost rules: { Rules };

    ghost lawful: { Lawful rules };

    // The kind of a word with this first byte.
    fn kind(first: u8) -> Kind
        ensures { result ≡ rules.kind first };

    // What a byte is between words.
    fn begins(byte: u8) -> Begin
        ensures { result ≡ rules.begins byte };

    // What a byte is behind these bytes of a word under way. How far it has come and its bytes stay two
    // parameters, here and in `whole`: the bytes are lent for the call, and a struct around both is no plainer.
    fn turns(inside: Inside, word: &[u8], byte: u8) -> Turn
        ensures { result ≡ rules.turns inside word.now byte };

    // May a word under way end behind these bytes?
    fn whole(inside: Inside, word: &[u8]) -> bool
        ensures { result ≡ rules.whole inside word.now };

    // May this byte follow such a word?
    fn delimits(byte: u8) -> bool
        ensures { result ≡ rules.delimits byte };

    // What a word with this first byte does at a spot; none where it may not stand there.
    fn moves(spot: Spot, first: u8) -> Option<Move>
        ensures { result ≡ rules.moves spot.expects spot.innermost first };

    // The Break before a word with this first byte, if any.
    fn lead(expects: Expects, first: u8) -> Option<Break>
        ensures { result ≡ rules.lead expects first };

    // The Opening of a bracket's block.
    fn block() -> Opening
        ensures { result ≡ rules.block };

    // The bytes of a word's Text.
    fn text(word: &[u8]) -> &[u8]
        ensures { result.now ≡ rules.text word.now };

    // What a document begins with.
    fn start() -> Expects
        ensures { result ≡ rules.start };

    // May a document end here, where no bracket is open?
    fn ends(expects: Expects) -> bool
        ensures { result ≡ rules.ends expects };
}
