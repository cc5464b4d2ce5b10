// Where a word may stand, what it does there, and the Break before it.
ghost use Rattle.std.specs.Prelude.{◌≡◌};
ghost use Rattle.json_language.specs.Rules.{as_value, item_or_name, as_string, as_comma, as_colon, closes, as_closing, sort_moves, sort_lead};
ghost use Rattle.json_grammar.specs.ByClass.{sort_in};

use json_language::class::Class;
use layout::token::Break;
use rules::place::{Bracket, Expects, Move, Spot};

// A value may stand where a value must come, and in an array where nothing or a comma stands before.
fn as_value(spot: Spot, does: Move) -> Option<Move>
    ensures { result ≡ as_value spot.expects spot.innermost does }
{
    match (spot.expects, spot.innermost) {
        (Expects::Value, _) | (Expects::First | Expects::Next, Some(Bracket::Array)) => Some(does),
        _ => None,
    }
}

// A string is an item of an array, or a name in an object.
fn item_or_name(innermost: Option<Bracket>) -> Option<Move>
    ensures { result ≡ item_or_name innermost }
{
    match innermost? {
        Bracket::Array => Some(Move::Within(Expects::After)),
        Bracket::Object => Some(Move::Within(Expects::Colon)),
        Bracket::List => None,
    }
}

// A string may stand where a value may, and in an object where nothing or a comma stands before.
fn as_string(spot: Spot) -> Option<Move>
    ensures { result ≡ as_string spot.expects spot.innermost }
{
    match spot.expects {
        Expects::First | Expects::Next => item_or_name(spot.innermost),
        Expects::Value => Some(Move::Within(Expects::After)),
        Expects::Colon | Expects::After => None,
    }
}

// A comma may stand behind a value in brackets.
fn as_comma(spot: Spot) -> Option<Move>
    ensures { result ≡ as_comma spot.expects spot.innermost }
{
    let stands = spot.expects == Expects::After && spot.innermost.is_some();
    stands.then_some(Move::Within(Expects::Next))
}

// A colon may stand behind a name.
fn as_colon(expects: Expects) -> Option<Move>
    ensures { result ≡ as_colon expects }
{
    (expects == Expects::Colon).then_some(Move::Within(Expects::Value))
}

// A bracket of JSON closes one of the same kind, and a list's closes nothing: so this is no equality.
fn closes(bracket: Bracket, innermost: Option<Bracket>) -> Option<Move>
    ensures { result ≡ closes bracket innermost }
{
    match (bracket, innermost?) {
        (Bracket::Array, Bracket::Array) | (Bracket::Object, Bracket::Object) => Some(Move::Closes),
        _ => None,
    }
}

// A closing bracket may stand behind the opening one, and behind a value.
fn as_closing(bracket: Bracket, spot: Spot) -> Option<Move>
    ensures { result ≡ as_closing bracket spot.expects spot.innermost }
{
    match spot.expects {
        Expects::First | Expects::After => closes(bracket, spot.innermost),
        Expects::Next | Expects::Colon | Expects::Value => None,
    }
}

// What a word with a first byte of this class does at a spot; none where it may not stand there.
pub fn class_moves(spot: Spot, first: Class) -> Option<Move>
    ensures { result ≡ sort_moves (sort_in first) spot.expects spot.innermost }
{
    match first {
        Class::OpenArray => as_value(spot, Move::Opens(Bracket::Array)),
        Class::OpenObject => as_value(spot, Move::Opens(Bracket::Object)),
        Class::CloseArray => as_closing(Bracket::Array, spot),
        Class::CloseObject => as_closing(Bracket::Object, spot),
        Class::Comma => as_comma(spot),
        Class::Colon => as_colon(spot.expects),
        Class::Quote => as_string(spot),
        Class::Minus | Class::Zero | Class::Digit | Class::Letter => {
            as_value(spot, Move::Within(Expects::After))
        }
        _ => None,
    }
}

// The Break before such a word: each first item or name has one without a blank, each later one has one with a blank,
// and a closing bracket behind a value has one whose offset takes its block's back.
pub fn class_lead(expects: Expects, first: Class) -> Option<Break>
    ensures { result ≡ sort_lead expects (sort_in first) }
{
    let closing = matches!(first, Class::CloseArray | Class::CloseObject);
    let (blanks, offset) = match expects {
        Expects::First if !closing => (0, 0),
        Expects::Next => (1, 0),
        Expects::After if closing => (0, -2),
        _ => return None,
    };
    Some(Break { blanks, offset })
}
