// How a reader takes a byte and the end.
ghost use Rattle.std.specs.Prelude.{◌≡◌};
ghost use Rattle.rules.specs.Machine.{fresh};
ghost use Rattle.reader.specs.State.{at_rest};
ghost use Rattle.reader.specs.Goes.{Steps, Finishes};

use crate::machine::Machine;
use crate::over::Over;
use crate::reader::Reader;
use grammar::refusal::Refusal;
use rules::language::Language;

impl<L: Language> Reader<L> {
    // A reader before the first byte.
    pub fn new() -> Reader<L>
        ensures { result ≡ at_rest (fresh L.Language.rules) }
    {
        Reader {
            machine: Machine::new(),
            over: Over::default(),
        }
    }

    // Takes a byte. What it has ended, `ended` and `token` then tell.
    pub fn step(&mut self, byte: u8) -> Result<(), Refusal>
        ensures { Steps L.Language.rules self.old.state byte self.new result }
    {
        self.machine.take(byte, &mut self.over)
    }

    // Takes the end. What it has ended, `ended` and `token` then tell.
    pub fn finish(&mut self) -> Result<(), Refusal>
        ensures { Finishes L.Language.rules self.old.state self.new result }
    {
        self.machine.end(&mut self.over)
    }
}
