// Writes into a sink what is decided already: a Break.
ghost use Rattle.std.specs.Prelude.{◌≡◌};
ghost use Rattle.pen.specs.At.{bytes_of};
ghost use Rattle.printer.specs.Writing.{Wrote};

use pen::breaking::Breaking;
use sink::fault::SinkFault;
use sink::sink::Sink;
use sink::write::{write_blanks, write_line};

// Writes blanks, or a newline and blanks, with nothing left to decide.
pub(crate) fn write_breaking<S: Sink>(
    sink: &mut S,
    older: usize,
    how: Breaking,
) -> Result<(), SinkFault>
    ensures rule { S.Sink.rule sink.new ≡ S.Sink.rule sink.old }
    ensures later { S.Sink.later sink.old sink.new }
    ensures writes { Wrote (S.Sink.rule sink.old) (S.Sink.text sink.old) (bytes_of how) older (S.Sink.text sink.new) result }
{
    match how {
        Breaking::Blanks(n) => write_blanks(sink, older, n),
        Breaking::Line(n) => write_line(sink, older, n),
    }
}
