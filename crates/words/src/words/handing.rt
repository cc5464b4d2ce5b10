// The word reader, as callers use it.
ghost use Rattle.std.specs.Prelude.{◌≡◌};
ghost use Rattle.reading.specs.Story.{story_of};
ghost use Rattle.words.specs.Left.{items_left};
ghost use Rattle.words.specs.Handed.{Handed};

use crate::fault::ReadFault;
use crate::word::Word;
use crate::words::Words;
use reader::reader::Reader;
use rules::language::Language;
use std::ops::ControlFlow;

impl<'a, L: Language> Words<'a, L> {
    // A word reader before the first byte of this text.
    pub fn new(text: &'a [u8]) -> Words<'a, L>
        ensures text { result.text ≡ text.now }
        ensures left { result.left ≡ story_of L.Language.rules text.now }
    {
        Words {
            text,
            reader: Reader::new(),
            taken: 0,
            handed: 0,
            fault: None,
        }
    }
}

// Each word, and none behind the last; or the refusal that ended the reading, again and again.
impl<'a, L: Language> Iterator for Words<'a, L> {
    type Item = Result<Word<'a>, ReadFault>;

    ghost next_gives = { λ v item w. (w.text ≡ v.text) × Handed L.Language.rules v.left w.left item };

    ghost remaining = { λ v. items_left v.left };

    fn next(&mut self) -> Option<Result<Word<'a>, ReadFault>> {
        loop {
            if let ControlFlow::Break(item) = self.advance() {
                return item;
            }
        }
    }
}
