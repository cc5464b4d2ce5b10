// How a number goes on, and where it may end.
ghost use Rattle.std.specs.Prelude.{◌≡◌};
ghost use Rattle.json_language.specs.Rules.{number_part, number_turn, number_whole};

use json_language::class::Class;
use rules::word::{Inside, Part, Turn};

// The part to which a byte of this class belongs behind a byte of that part; none if it is no part of the number.
fn number_part(part: Part, class: Class) -> Option<Part>
    ensures { result ≡ number_part part class }
{
    match (part, class) {
        (Part::Minus, Class::Zero) => Some(Part::Zero),
        (Part::Minus, Class::Digit) => Some(Part::Integer),
        (Part::Integer, Class::Zero | Class::Digit) => Some(Part::Integer),
        (Part::Zero | Part::Integer, Class::Point) => Some(Part::Point),
        (Part::Point | Part::Fraction, Class::Zero | Class::Digit) => Some(Part::Fraction),
        (Part::Zero | Part::Integer | Part::Fraction, Class::Exponent) => Some(Part::Letter),
        (Part::Letter, Class::Minus | Class::Plus) => Some(Part::Sign),
        (Part::Letter | Part::Sign | Part::Exponent, Class::Zero | Class::Digit) => {
            Some(Part::Exponent)
        }
        _ => None,
    }
}

// What a byte of this class is in a number, behind a byte of this part.
pub fn number_turn(part: Part, class: Class) -> Turn
    ensures { result ≡ number_turn (number_part part class) }
{
    match number_part(part, class) {
        Some(next) => Turn::Stays(Inside::Number(next)),
        None => Turn::Never,
    }
}

// May a number end behind this part?
pub fn number_whole(part: Part) -> bool
    ensures { result ≡ number_whole part }
{
    matches!(
        part,
        Part::Zero | Part::Integer | Part::Fraction | Part::Exponent
    )
}
