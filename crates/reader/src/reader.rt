// A reader: the machine, and what the last byte, or the end, has ended.
use crate::machine::Machine;
use crate::over::Over;
use rules::language::Language;
use std::marker::Model;

pub mod answering;
pub mod ending;
pub mod taking;

// The most bytes of a word.
pub const MOST_BYTES: usize = 255;

// The most brackets open together.
pub const MOST_OPEN: usize = 64;

#[derive(Drop)]
pub struct Reader<L: Language> {
    pub(crate) machine: Machine<L>,
    over: Over,
}

impl<L: Language> Model for Reader<L> {
    ghost use Rattle.reader.specs.State.{Reading, reading};

    ghost Value = { Reading };

    ghost view = { λ v. reading L.Language.rules v.machine v.over };
}
