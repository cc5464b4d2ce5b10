// Strings: what a byte is where no escape is under way, and the escape under way.
ghost use Rattle.std.specs.Prelude.{◌≡◌};
ghost use Rattle.rules.specs.Escapes.{escape_of, unescaped_turn};

use crate::word::{Inside, Turn};

// The bytes of the escape under way: the last n of the word.
pub fn escape_of(n: u8, word: &[u8]) -> &[u8]
    ensures { result.now ≡ escape_of n word.now }
{
    let from = word.len().saturating_sub(n as usize);
    &word[from..]
}

// What a byte is in a string where no escape is under way.
pub fn unescaped_turn(byte: u8) -> Turn
    ensures { result ≡ unescaped_turn byte }
{
    match byte {
        b'"' => Turn::Closes,
        b'\\' => Turn::Stays(Inside::Quoted(1)),
        0..=0x1F => Turn::Never,
        _ => Turn::Stays(Inside::Quoted(0)),
    }
}
