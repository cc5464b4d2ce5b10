// A reader is a grammar: what it answers to each byte and to the end.
ghost use Rattle.std.specs.Prelude.{◌≡◌, length};
ghost use Rattle.rules.specs.Machine.{grammar_of, means};
ghost use Rattle.reading.proofs.Shows.{shows_laws};

use crate::over::{Over, count_if};
use crate::reader::Reader;
use crate::tokens::token_of;
use grammar::grammar::{Grammar, Step};
use grammar::refusal::Refusal;
use layout::token::Token;
use rules::language::Language;
use std::slice;

impl<L: Language> Grammar for Reader<L> {
    ghost whole = { grammar_of L.Language.rules };

    ghost laws = { shows_laws L.Language.rules L.Language.lawful };

    ghost meaning = { λ v. means L.Language.rules v.state };

    ghost given = { λ v. v.given };

    fn fresh() -> Self {
        Reader::new()
    }

    fn take(&mut self, byte: u8) -> Result<Step, Refusal> {
        self.step(byte)?;
        Ok(self.counted())
    }

    fn end(&mut self) -> Result<Step, Refusal> {
        self.finish()?;
        Ok(self.counted())
    }

    fn token(&self, number: u32) -> Option<Token<&[u8]>> {
        let first = count_if(self.over.collected);
        if number < first {
            token_of::<L>(self.over.collected?, self.machine.collected(), number)
        } else {
            let own = self.over.own.as_ref()?;
            token_of::<L>(own.piece, slice::from_ref(&own.byte), number - first)
        }
    }

    fn depth(&self) -> u32 {
        self.machine.depth()
    }
}

impl<L: Language> Reader<L> {
    // How many words were ended last, and how many tokens stand for them.
    fn counted(&self) -> Step
        ensures words { result.words ≡ length self.now.ended }
        ensures tokens { result.tokens ≡ length self.now.given }
    {
        // most bytes end none
        if let Over {
            collected: None,
            own: None,
        } = self.over
        {
            return Step {
                words: 0,
                tokens: 0,
            };
        }
        Step {
            words: self.over.words(),
            tokens: self.over.tokens(),
        }
    }
}
