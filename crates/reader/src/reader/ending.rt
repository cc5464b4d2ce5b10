// What a reader tells of the words that the last byte, or the end, has ended.
ghost use Rattle.std.specs.Prelude.{◌≡◌, ◌<◌, OnSome};
ghost use Rattle.reader.specs.Endings.{described_at};

use crate::ended::{Ended, describe, describe_own};
use crate::reader::Reader;
use rules::language::Language;

impl<L: Language> Reader<L> {
    // The word of this number among those ended last, in their order, if there are so many: at most two.
    pub fn ended(&self, number: u32) -> Option<Ended>
        ensures told { result ≡ described_at L.Language.rules self.now.ended number }
        ensures few { OnSome result (number < 2) }
    {
        if self.over.collected.is_none() {
            return describe_own::<L>(self.over.own, number);
        }
        if number == 0 {
            return describe::<L>(self.machine.collected());
        }
        describe_own::<L>(self.over.own, number - 1)
    }
}
