// The trait of grammars. A reader takes a document byte by byte. It means, at each moment, what it will
// answer to every list of bytes still to come; a fresh one means the whole grammar; a byte taken leaves
// that meaning for the rest.
ghost use Rattle.std.specs.Prelude.{◌≡◌, List, []};
ghost use Rattle.layout.specs.Tokens.{Token as Given};
ghost use Rattle.grammar.specs.Meaning.{Meaning, byte as next_byte, end as the_end};
ghost use Rattle.grammar.specs.Laws.{Laws};
ghost use Rattle.grammar.specs.Reading.{Took, Closed, Nth};

use crate::refusal::Refusal;
use layout::token::Token;

// How many words a byte, or the end, has ended, and how many tokens stand for them.
#[derive(Clone, Copy)]
pub struct Step {
    pub words: u32,
    pub tokens: u32,
}

pub trait Grammar: Sized {
    // the whole grammar, and the proof of its laws
    ghost whole: { Meaning };

    ghost laws: { Laws whole };

    // what a reader means, and the tokens that the last byte or the end gave
    ghost meaning: { Self → Meaning };

    ghost given: { Self → List Given };

    // A reader before the first byte.
    fn fresh() -> Self
        ensures whole { meaning result ≡ whole }
        ensures given { given result ≡ [] };

    // Takes a byte, and gives the tokens of the words that it ends; or refuses it, and means what it did.
    fn take(&mut self, byte: u8) -> Result<Step, Refusal>
        ensures { Took (meaning self.old) byte (meaning self.new) (given self.new) result };

    // Ends the document, and gives the tokens still missing; or refuses the end, and means what it did.
    fn end(&mut self) -> Result<Step, Refusal>
        ensures { Closed (meaning self.old) (meaning self.new) (given self.new) result };

    // The token of this number among those given last, if there are so many.
    fn token(&self, number: u32) -> Option<Token<&[u8]>>
        ensures { Nth (given self.now) number result };

    // The brackets open among the words that the bytes taken have ended.
    fn depth(&self) -> u32
        ensures { result ≡ (meaning self.now).depth [] };
}
