// What is told of a word that ended says where it stands; and what every reader keeps.
ghost use Rattle.rules.specs.Machine.{fresh};
ghost use Rattle.reader.specs.Endings.{OwnIsLast};
ghost use Rattle.reader.specs.Goes.{StaysSound, EndsSound};
ghost use Rattle.reader.specs.State.{Sound};

use crate::reader::Reader;
use rules::language::Language;

// A word with a last byte of its own ends with the byte that ended it; any other is over before it.
pub fn own_is_last<L: Language>()
    ensures { OwnIsLast L.Language.rules }
{}

// A fresh reader's state is sound, and so is the state behind each byte, and behind the end, that is taken from a
// sound one.
pub fn readers_are_sound<L: Language>()
    ensures fresh { Sound L.Language.rules (fresh L.Language.rules) }
    ensures stays { StaysSound L.Language.rules }
    ensures ends { EndsSound L.Language.rules }
{}

// The state of every reader is sound: so `own_is_last` holds of the next byte, or the end, that it takes.
pub fn reader_is_sound<L: Language>(reader: &Reader<L>)
    ensures { Sound L.Language.rules reader.now.state }
{
    reader.machine.is_sound();
}
