// The class of each byte, by a table whose cells have short names. Each grammar has a line of its own over its
// own table: one over any table would be given the table and say no more.
ghost use Rattle.std.specs.Prelude.{◌≡◌};
ghost use Rattle.sexpr_language.specs.Classes.{class_of};

use sexpr_language::class::Class;
use sexpr_language::class::Class::{
    Atom as At, Backslash as Bs, Barred as Ba, Blank as Bl, Close as Cl, Control as Ct, Open as Op,
    Quote as Qu, Space as Sp,
};

// The class of each byte, sixteen bytes to a line.
#[rattlefmt::skip]
static CLASSES: [Class; 256] = [
    Ct, Ct, Ct, Ct, Ct, Ct, Ct, Ct, Ct, Bl, Bl, Ct, Ct, Bl, Ct, Ct,
    Ct, Ct, Ct, Ct, Ct, Ct, Ct, Ct, Ct, Ct, Ct, Ct, Ct, Ct, Ct, Ct,
    Sp, At, Qu, At, At, At, At, At, Op, Cl, At, At, At, At, At, At,
    At, At, At, At, At, At, At, At, At, At, At, Ba, At, At, At, At,
    At, At, At, At, At, At, At, At, At, At, At, At, At, At, At, At,
    At, At, At, At, At, At, At, At, At, At, At, At, Bs, At, At, At,
    At, At, At, At, At, At, At, At, At, At, At, At, At, At, At, At,
    At, At, At, At, At, At, At, At, At, At, At, At, At, At, At, Ba,
    At, At, At, At, At, At, At, At, At, At, At, At, At, At, At, At,
    At, At, At, At, At, At, At, At, At, At, At, At, At, At, At, At,
    At, At, At, At, At, At, At, At, At, At, At, At, At, At, At, At,
    At, At, At, At, At, At, At, At, At, At, At, At, At, At, At, At,
    At, At, At, At, At, At, At, At, At, At, At, At, At, At, At, At,
    At, At, At, At, At, At, At, At, At, At, At, At, At, At, At, At,
    At, At, At, At, At, At, At, At, At, At, At, At, At, At, At, At,
    At, At, At, At, At, At, At, At, At, At, At, At, At, At, At, At,
];

// The class of a byte.
pub fn class_of(byte: u8) -> Class
    ensures { result ≡ class_of byte }
{
    CLASSES[byte as usize]
}
