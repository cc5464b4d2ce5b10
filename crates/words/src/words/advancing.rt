// Reading on: a word that waits is handed out; else a byte is taken, or the end.
ghost use Rattle.std.specs.Prelude.{◌≡◌, ◌-◌, drop, if◌then◌else◌, not};
ghost use Rattle.rules.specs.Rules.{loose};
ghost use Rattle.words.specs.Handed.{Takes, Advanced};

use crate::fault::ReadFault;
use crate::word::{Word, word_of};
use crate::words::Words;
use grammar::refusal::Refusal;
use reader::ended::Ended;
use reader::reader::Reader;
use rules::language::Language;
use std::ops::ControlFlow;

// Where a word stands that the last of so many bytes has ended: it ends with that byte, or before it.
fn place_of(ended: Ended, taken: usize) -> usize
    ensures { result ≡ (if not (loose ended.kind) then taken else taken - 1) - ended.len }
{
    let end = if ended.own() {
        taken
    } else {
        taken.saturating_sub(1)
    };
    end.saturating_sub(ended.len)
}

// Takes the byte at this place of the text, or the end where there is none.
fn take<L: Language>(reader: &mut Reader<L>, text: &[u8], place: usize) -> Result<(), Refusal>
    ensures { Takes L.Language.rules reader.old.state (drop place text.now) reader.new result }
{
    match text.get(place) {
        Some(byte) => reader.step(*byte),
        None => reader.finish(),
    }
}

impl<'a, L: Language> Words<'a, L> {
    // Hands out a word that waits, or tells how the reading ended; or takes one byte more, or the end.
    pub(crate) fn advance(&mut self) -> ControlFlow<Option<Result<Word<'a>, ReadFault>>>
        ensures text { self.new.text ≡ self.old.text }
        ensures advanced { Advanced L.Language.rules self.old self.new result }
    {
        if let Some(fault) = self.fault {
            return ControlFlow::Break(Some(Err(fault)));
        }
        if let Some(ended) = self.reader.ended(self.handed) {
            let place = place_of(ended, self.taken);
            let part = &self.text[place..place + ended.len];
            self.handed += 1;
            return ControlFlow::Break(Some(Ok(word_of(ended.kind, part, place))));
        }
        let place = self.taken;
        if place > self.text.len() {
            return ControlFlow::Break(None);
        }
        match take(&mut self.reader, self.text, place) {
            Ok(()) => {
                self.taken = place + 1;
                self.handed = 0;
                ControlFlow::Continue(())
            }
            Err(refusal) => {
                self.fault = Some(ReadFault { refusal, place });
                ControlFlow::Continue(())
            }
        }
    }
}
