// What the rules of JSON answer, by the class of each byte.
ghost use Rattle.std.specs.Prelude.{◌≡◌};
ghost use Rattle.json_language.specs.Words.{kind_as};
ghost use Rattle.json_language.specs.Rules.{json_rules};
ghost use Rattle.json_language.proofs.Lawful.{json_lawful};
ghost use Rattle.json_grammar.specs.ByClass.{sort_in, delimits_in};

use crate::classes::class_of;
use crate::literals::{literal_goes_on, literal_whole};
use crate::numbers::{number_turn, number_whole};
use crate::places::{class_lead, class_moves};
use crate::strings::string_turn;
use json_language::class::Class;
use layout::token::{Anchor, Break, Fold, Opening};
use rules::escape::escape_of;
use rules::language::Language;
use rules::place::{Expects, Move, Spot};
use rules::word::{Begin, Inside, Kind, Part, Turn};

// The language JSON: a value, which may be an array or an object of values.
#[derive(Clone, Copy)]
pub struct Json;

#[tactic(auto, using(crate::proofs::Sorts::sort_class, crate::proofs::Sorts::delimits_class))]
impl Language for Json {
    ghost rules = { json_rules };

    ghost lawful = { json_lawful };

    fn kind(first: u8) -> Kind {
        class_kind(class_of(first))
    }

    fn begins(byte: u8) -> Begin {
        match class_of(byte) {
            Class::Blank | Class::Space => Begin::Blank,
            Class::Quote => Begin::Starts(Inside::Quoted(0)),
            Class::OpenArray | Class::CloseArray => Begin::Sole,
            Class::OpenObject | Class::CloseObject => Begin::Sole,
            Class::Comma | Class::Colon => Begin::Sole,
            Class::Minus => Begin::Starts(Inside::Number(Part::Minus)),
            Class::Zero => Begin::Starts(Inside::Number(Part::Zero)),
            Class::Digit => Begin::Starts(Inside::Number(Part::Integer)),
            Class::Letter => Begin::Starts(Inside::Literal),
            _ => Begin::Never,
        }
    }

    fn turns(inside: Inside, word: &[u8], byte: u8) -> Turn {
        match inside {
            Inside::Quoted(n) => string_turn(escape_of(n, word), byte),
            Inside::Number(part) => number_turn(part, class_of(byte)),
            Inside::Literal if literal_goes_on(word, byte) => Turn::Stays(Inside::Literal),
            Inside::Literal | Inside::Atom => Turn::Never,
        }
    }

    fn whole(inside: Inside, word: &[u8]) -> bool {
        match inside {
            Inside::Number(part) => number_whole(part),
            Inside::Literal => literal_whole(word),
            Inside::Quoted(_) | Inside::Atom => false,
        }
    }

    fn delimits(byte: u8) -> bool {
        class_delimits(class_of(byte))
    }

    fn moves(spot: Spot, first: u8) -> Option<Move> {
        class_moves(spot, class_of(first))
    }

    fn lead(expects: Expects, first: u8) -> Option<Break> {
        class_lead(expects, class_of(first))
    }

    fn block() -> Opening {
        Opening {
            offset: 2,
            fold: Fold::All,
            anchor: Anchor::Indent,
        }
    }

    fn text(word: &[u8]) -> &[u8] {
        match word {
            [b':'] => b": ",
            _ => word,
        }
    }

    fn start() -> Expects {
        Expects::Value
    }

    fn ends(expects: Expects) -> bool {
        expects == Expects::After
    }
}

// The kind of a word with a first byte of this class.
fn class_kind(first: Class) -> Kind
    ensures { result ≡ kind_as (sort_in first) }
{
    match first {
        Class::OpenArray | Class::OpenObject => Kind::Opening,
        Class::CloseArray | Class::CloseObject => Kind::Closing,
        Class::Comma => Kind::Comma,
        Class::Colon => Kind::Colon,
        Class::Quote => Kind::Text,
        Class::Minus | Class::Zero | Class::Digit => Kind::Number,
        Class::Letter => Kind::Literal,
        _ => Kind::Atom,
    }
}

// May a byte of this class follow a number or a literal?
fn class_delimits(class: Class) -> bool
    ensures { result ≡ delimits_in class }
{
    matches!(
        class,
        Class::Blank
            | Class::Space
            | Class::Quote
            | Class::Comma
            | Class::Colon
            | Class::OpenArray
            | Class::CloseArray
            | Class::OpenObject
            | Class::CloseObject
    )
}
