// How a literal goes on, and where it may end.
ghost use Rattle.std.specs.Prelude.{◌≡◌};
ghost use Rattle.json_language.specs.Rules.{literal_goes_on, literal_whole};

// Do these bytes and this byte begin one of the three words?
pub fn literal_goes_on(word: &[u8], byte: u8) -> bool
    ensures { result ≡ literal_goes_on word.now byte }
{
    match word {
        [] => matches!(byte, b't' | b'f' | b'n'),
        b"t" => byte == b'r',
        b"f" => byte == b'a',
        b"n" | b"tr" => byte == b'u',
        b"fa" | b"nu" | b"nul" => byte == b'l',
        b"fal" => byte == b's',
        b"tru" | b"fals" => byte == b'e',
        _ => false,
    }
}

// Are these bytes one of the three words?
pub fn literal_whole(word: &[u8]) -> bool
    ensures { result ≡ literal_whole word.now }
{
    matches!(word, b"true" | b"false" | b"null")
}
