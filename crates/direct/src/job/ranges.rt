// The ranges of what direct calls are given.
ghost use Rattle.std.specs.Prelude.{◌≡◌};
ghost use Rattle.direct.specs.Calls.{in_range, near, text_call, break_call, opening_call};

use layout::token::{Break, Opening};

// Is a Text of 1 to 255 bytes, all 0x20 or more?
pub(crate) fn is_text(bytes: &[u8]) -> bool
    ensures { result ≡ in_range (text_call bytes.now) }
{
    !bytes.is_empty() && bytes.len() <= 255 && bytes.iter().all(|&b| b >= 0x20)
}

// Is an offset -16 to 16?
fn is_near(offset: i8) -> bool
    ensures { result ≡ near offset }
{
    (-16..=16).contains(&offset)
}

// Has an Opening such an offset?
pub(crate) fn is_opening(opening: Opening) -> bool
    ensures { result ≡ in_range (opening_call opening.offset opening.fold opening.anchor) }
{
    is_near(opening.offset)
}

// Has a Break 0 to 8 blanks, and such an offset?
pub(crate) fn is_break(gap: Break) -> bool
    ensures { result ≡ in_range (break_call gap.blanks gap.offset) }
{
    gap.blanks <= 8 && is_near(gap.offset)
}
