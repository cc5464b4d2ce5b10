// What the rules of S-expressions answer, by the class of each byte.
ghost use Rattle.std.specs.Prelude.{◌≡◌};
ghost use Rattle.sexpr_language.specs.Classes.{class_of};
ghost use Rattle.sexpr_language.specs.Rules.{sexpr_rules, atom_turns, escape_turns, string_turns, class_moves, class_lead};
ghost use Rattle.sexpr_language.proofs.Lawfulness.{sexpr_rules_lawful};

use crate::classes::class_of;
use layout::token::{Anchor, Break, Fold, Opening};
use rules::escape::{escape_of, unescaped_turn};
use rules::language::Language;
use rules::place::{Bracket, Expects, Move, Spot};
use rules::word::{Begin, Inside, Kind, Turn};
use sexpr_language::class::Class;

// The language of S-expressions: lists in parentheses, strings and atoms.
#[derive(Clone, Copy)]
pub struct Sexpr;

impl Language for Sexpr {
    ghost rules = { sexpr_rules };

    ghost lawful = { sexpr_rules_lawful };

    fn kind(first: u8) -> Kind {
        match class_of(first) {
            Class::Quote => Kind::Text,
            Class::Open => Kind::Opening,
            Class::Close => Kind::Closing,
            _ => Kind::Atom,
        }
    }

    fn begins(byte: u8) -> Begin {
        match class_of(byte) {
            Class::Blank | Class::Space => Begin::Blank,
            Class::Quote => Begin::Starts(Inside::Quoted(0)),
            Class::Open | Class::Close => Begin::Sole,
            Class::Backslash | Class::Atom => Begin::Starts(Inside::Atom),
            Class::Control | Class::Barred => Begin::Never,
        }
    }

    fn turns(inside: Inside, word: &[u8], byte: u8) -> Turn {
        match inside {
            Inside::Quoted(n) => string_turns(escape_of(n, word), byte),
            Inside::Atom => atom_turns(class_of(byte)),
            Inside::Number(_) | Inside::Literal => Turn::Never,
        }
    }

    fn whole(inside: Inside, word: &[u8]) -> bool {
        inside == Inside::Atom
    }

    fn delimits(byte: u8) -> bool {
        matches!(
            class_of(byte),
            Class::Blank | Class::Space | Class::Quote | Class::Open | Class::Close
        )
    }

    fn moves(spot: Spot, first: u8) -> Option<Move> {
        match spot.expects {
            Expects::First | Expects::After => class_moves(spot.innermost, class_of(first)),
            Expects::Next | Expects::Colon | Expects::Value => None,
        }
    }

    fn lead(expects: Expects, first: u8) -> Option<Break> {
        match expects {
            Expects::After => class_lead(class_of(first)),
            Expects::First | Expects::Next | Expects::Colon | Expects::Value => None,
        }
    }

    fn block() -> Opening {
        Opening {
            offset: 1,
            fold: Fold::Each,
            anchor: Anchor::Column,
        }
    }

    fn text(word: &[u8]) -> &[u8] {
        word
    }

    fn start() -> Expects {
        Expects::First
    }

    fn ends(expects: Expects) -> bool {
        matches!(expects, Expects::First | Expects::After)
    }
}

// What a byte of this class is in an atom.
fn atom_turns(class: Class) -> Turn
    ensures { result ≡ atom_turns class }
{
    match class {
        Class::Backslash | Class::Atom => Turn::Stays(Inside::Atom),
        _ => Turn::Never,
    }
}

// What a byte is in a string, behind the bytes of the escape under way: none, or a backslash.
#[tactic(auto, using(crate::proofs::Strings::unescaped_class))]
fn string_turns(escape: &[u8], byte: u8) -> Turn
    ensures { result ≡ string_turns escape.now (class_of byte) }
{
    match escape {
        [] => unescaped_turn(byte),
        [_, ..] => escape_turns(class_of(byte)),
    }
}

// What a byte of this class is in a string, behind a backslash.
fn escape_turns(class: Class) -> Turn
    ensures { result ≡ escape_turns class }
{
    match class {
        Class::Control | Class::Blank => Turn::Never,
        _ => Turn::Stays(Inside::Quoted(0)),
    }
}

// What a word with a first byte of this class does where an expression may stand: a parenthesis is closed only where one is open.
fn class_moves(innermost: Option<Bracket>, first: Class) -> Option<Move>
    ensures { result ≡ class_moves innermost first }
{
    match first {
        Class::Quote | Class::Backslash | Class::Atom => Some(Move::Within(Expects::After)),
        Class::Open => Some(Move::Opens(Bracket::List)),
        Class::Close => innermost.map(|_| Move::Closes),
        Class::Control | Class::Blank | Class::Space | Class::Barred => None,
    }
}

// The Break behind an expression: none before a closing parenthesis.
fn class_lead(first: Class) -> Option<Break>
    ensures { result ≡ class_lead first }
{
    (first != Class::Close).then_some(Break {
        blanks: 1,
        offset: 0,
    })
}
