// How a slip is filled: a newline starts the next row, and any other byte goes behind the line of the last.

ghost use Rattle.sink.specs.SlipLaws.{text_of, rule_of, Later, slip_laws};

use super::{Row, Slip};
use crate::fault::Refusal;
use crate::sink::Sink;

impl Sink for Slip {
    ghost kind = { 2 };

    ghost text = { text_of };

    ghost rule = { rule_of };

    ghost later = { Later };

    ghost laws = { slip_laws };

    fn kind() -> u8 {
        2
    }

    fn len(&self) -> usize {
        self.len
    }

    fn put(&mut self, byte: u8) -> Result<(), Refusal> {
        if byte == b'\n' {
            self.rows.try_push(Row::new())?;
        } else {
            let last = self.rows.len() - 1;
            self.rows[last].try_push(byte)?;
        }
        self.len += 1;
        Ok(())
    }
}
