// How the machine takes a byte.
ghost use Rattle.std.specs.Prelude.{◌≡◌, [], None, ◌&&◌};
ghost use Rattle.reading.specs.Accepts.{at};
ghost use Rattle.reader.specs.State.{expecting, state_of, reading, Sound};
ghost use Rattle.reader.specs.Goes.{Begins, Steps};

use crate::machine::Machine;
use crate::machine::placing::go;
use crate::over::{Over, Own};
use grammar::refusal::Refusal;
use rules::language::Language;
use rules::place::Expects;
use rules::word::{Begin, Inside, Turn};

impl<L: Language> Machine<L> {
    // Takes a byte, and writes down what it has ended, in place of what stood there. What was ended is no
    // part of the answer: it would be copied at each byte.
    pub(crate) fn take(&mut self, byte: u8, over: &mut Over) -> Result<(), Refusal>
        ensures { Steps L.Language.rules (state_of self.old) byte (reading L.Language.rules self.new over.new) result }
    {
        self.settle();
        *over = Over::default();
        match self.inside {
            None => self.between(self.expects, byte, &mut over.own),
            Some(inside) => self.within(inside, byte, over),
        }
    }

    // Takes a byte between words, where this may come, and writes it down if it is a word of its own.
    fn between(&mut self, expects: Expects, byte: u8, own: &mut Option<Own>) -> Result<(), Refusal>
        requires sound { Sound L.Language.rules (at (expecting expects self.old.place) None []) }
        requires none { own.old ≡ None }
        ensures { Begins L.Language.rules (expecting expects self.old.place) byte self.old self.new own.new result }
    {
        match L::begins(byte) {
            Begin::Blank => {
                self.expects = expects;
                self.inside = None;
                Ok(())
            }
            Begin::Sole => {
                let piece = self.piece(expects, byte).ok_or(Refusal::NoDocument)?;
                go(&mut self.brackets, piece.step)?;
                self.expects = piece.behind();
                self.inside = None;
                *own = Some(Own { piece, byte });
                Ok(())
            }
            Begin::Starts(inside) => {
                if !self.admits(expects, byte) {
                    return Err(Refusal::NoDocument);
                }
                self.expects = expects;
                self.inside = Some(inside);
                self.begun = Some(byte);
                Ok(())
            }
            Begin::Never => Err(Refusal::NoDocument),
        }
    }

    // Takes a byte behind the collected bytes of a word under way, and writes down what it has ended.
    fn within(&mut self, inside: Inside, byte: u8, over: &mut Over) -> Result<(), Refusal>
        requires under { self.old.inside ≡ Some inside }
        requires settled { self.old.waiting ≡ None }
        requires collected { over.old.collected ≡ None }
        requires own { over.old.own ≡ None }
        ensures { Steps L.Language.rules (state_of self.old) byte (reading L.Language.rules self.new over.new) result }
    {
        match L::turns(inside, self.word.as_slice(), byte) {
            Turn::Stays(next) => {
                self.word.collect(byte)?;
                self.inside = Some(next);
                Ok(())
            }
            Turn::Closes => {
                let piece = self.around(inside);
                self.word.collect(byte)?;
                self.expects = piece.behind();
                self.inside = None;
                over.collected = Some(piece);
                Ok(())
            }
            Turn::Never => {
                if !self.may_end(inside, byte) {
                    return Err(Refusal::NoDocument);
                }
                let piece = self.around(inside);
                // written first, so that nothing is kept over the call; what is refused ends no word
                over.collected = Some(piece);
                match self.between(piece.behind(), byte, &mut over.own) {
                    Ok(()) => Ok(()),
                    Err(refusal) => {
                        *over = Over::default();
                        Err(refusal)
                    }
                }
            }
        }
    }

    // May the collected word end before this byte?
    fn may_end(&self, inside: Inside, byte: u8) -> bool
        ensures { result ≡ (L.Language.rules.whole inside self.now.bytes && L.Language.rules.delimits byte) }
    {
        L::whole(inside, self.word.as_slice()) && L::delimits(byte)
    }
}
