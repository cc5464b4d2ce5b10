// How a string goes on, and where it ends.
ghost use Rattle.std.specs.Prelude.{◌≡◌};
ghost use Rattle.json_language.specs.Rules.{escape_turn, digit_turn, unicode_turn, string_turn};

use rules::escape::unescaped_turn;
use rules::word::{Inside, Turn};

// What a byte is behind a backslash.
fn escape_turn(byte: u8) -> Turn
    ensures { result ≡ escape_turn byte }
{
    match byte {
        b'u' => Turn::Stays(Inside::Quoted(2)),
        b'"' | b'\\' | b'/' | b'b' | b'f' | b'n' | b'r' | b't' => Turn::Stays(Inside::Quoted(0)),
        _ => Turn::Never,
    }
}

// What a hexadecimal digit is behind a backslash, u and these digits: the fourth ends the escape.
fn digit_turn(digits: &[u8]) -> Turn
    ensures { result ≡ digit_turn digits.now }
{
    match digits {
        [] => Turn::Stays(Inside::Quoted(3)),
        [_] => Turn::Stays(Inside::Quoted(4)),
        [_, _] => Turn::Stays(Inside::Quoted(5)),
        [_, _, _] => Turn::Stays(Inside::Quoted(0)),
        _ => Turn::Never,
    }
}

// What a byte is behind a backslash, u and these digits.
fn unicode_turn(digits: &[u8], byte: u8) -> Turn
    ensures { result ≡ unicode_turn digits.now byte }
{
    if byte.is_ascii_hexdigit() {
        digit_turn(digits)
    } else {
        Turn::Never
    }
}

// What a byte is in a string, behind these bytes of the escape under way; behind none, where there is none.
#[tactic(auto, using(crate::proofs::Sorts::unescaped_class, crate::proofs::Escapes::behind_u))]
pub fn string_turn(escape: &[u8], byte: u8) -> Turn
    ensures { result ≡ string_turn escape.now byte }
{
    match escape {
        [] => unescaped_turn(byte),
        [b'\\'] => escape_turn(byte),
        [b'\\', b'u', digits @ ..] => unicode_turn(digits, byte),
        _ => Turn::Never,
    }
}
