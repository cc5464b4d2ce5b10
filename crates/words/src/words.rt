// A word reader over a text that is lent for reading.
use crate::fault::ReadFault;
use reader::reader::Reader;
use rules::language::Language;
use std::marker::Model;

mod advancing;
pub mod handing;

#[derive(Drop)]
pub struct Words<'a, L: Language> {
    text: &'a [u8],
    reader: Reader<L>,
    // how many bytes were taken; the end counts as one more
    taken: usize,
    // how many of the words that the last of these has ended were handed out
    handed: u32,
    // the refusal that ended the reading
    fault: Option<ReadFault>,
}

// A word reader is what is left to hand out of its text; each word that waits is a part of the text.
impl<'a, L: Language> Model for Words<'a, L> {
    ghost use Rattle.words.specs.Left.{Telling};

    ghost Value = { Telling };

    ghost use Rattle.words.specs.Fields.{telling, Sound};

    ghost view = { telling L.Language.rules };

    ghost invariant = { Sound L.Language.rules };
}
