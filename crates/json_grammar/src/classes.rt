// The class of each byte, by a table whose cells have short names. Each grammar has a line of its own over its
// own table: one over any table would be given the table and say no more.
ghost use Rattle.std.specs.Prelude.{◌≡◌};
ghost use Rattle.json_language.specs.Classes.{class_of};

use json_language::class::Class;
use json_language::class::Class::{
    Backslash as Bs, Blank as Bl, CloseArray as Ca, CloseObject as Co, Colon as Cn, Comma as Cm,
    Control as Ct, Digit as Di, Exponent as Ex, Letter as Le, Minus as Mi, OpenArray as Oa,
    OpenObject as Oo, Other as Ot, Plus as Pl, Point as Po, Quote as Qu, Space as Sp, Zero as Ze,
};

// The class of each byte, sixteen bytes to a line.
#[rattlefmt::skip]
static CLASSES: [Class; 256] = [
    Ct, Ct, Ct, Ct, Ct, Ct, Ct, Ct, Ct, Bl, Bl, Ct, Ct, Bl, Ct, Ct,
    Ct, Ct, Ct, Ct, Ct, Ct, Ct, Ct, Ct, Ct, Ct, Ct, Ct, Ct, Ct, Ct,
    Sp, Ot, Qu, Ot, Ot, Ot, Ot, Ot, Ot, Ot, Ot, Pl, Cm, Mi, Po, Ot,
    Ze, Di, Di, Di, Di, Di, Di, Di, Di, Di, Cn, Ot, Ot, Ot, Ot, Ot,
    Ot, Ot, Ot, Ot, Ot, Ex, Ot, Ot, Ot, Ot, Ot, Ot, Ot, Ot, Ot, Ot,
    Ot, Ot, Ot, Ot, Ot, Ot, Ot, Ot, Ot, Ot, Ot, Oa, Bs, Ca, Ot, Ot,
    Ot, Ot, Ot, Ot, Ot, Ex, Le, Ot, Ot, Ot, Ot, Ot, Ot, Ot, Le, Ot,
    Ot, Ot, Ot, Ot, Le, Ot, Ot, Ot, Ot, Ot, Ot, Oo, Ot, Co, Ot, Ot,
    Ot, Ot, Ot, Ot, Ot, Ot, Ot, Ot, Ot, Ot, Ot, Ot, Ot, Ot, Ot, Ot,
    Ot, Ot, Ot, Ot, Ot, Ot, Ot, Ot, Ot, Ot, Ot, Ot, Ot, Ot, Ot, Ot,
    Ot, Ot, Ot, Ot, Ot, Ot, Ot, Ot, Ot, Ot, Ot, Ot, Ot, Ot, Ot, Ot,
    Ot, Ot, Ot, Ot, Ot, Ot, Ot, Ot, Ot, Ot, Ot, Ot, Ot, Ot, Ot, Ot,
    Ot, Ot, Ot, Ot, Ot, Ot, Ot, Ot, Ot, Ot, Ot, Ot, Ot, Ot, Ot, Ot,
    Ot, Ot, Ot, Ot, Ot, Ot, Ot, Ot, Ot, Ot, Ot, Ot, Ot, Ot, Ot, Ot,
    Ot, Ot, Ot, Ot, Ot, Ot, Ot, Ot, Ot, Ot, Ot, Ot, Ot, Ot, Ot, Ot,
    Ot, Ot, Ot, Ot, Ot, Ot, Ot, Ot, Ot, Ot, Ot, Ot, Ot, Ot, Ot, Ot,
];

// The class of a byte.
pub fn class_of(byte: u8) -> Class
    ensures { result ≡ class_of byte }
{
    CLASSES[byte as usize]
}
