// Writes runs of bytes into any sink: all of a run, or up to the first byte that the sink's rule does not admit, with the fault of that
// byte. What stands in the sink then is the text before and what the rule keeps of the run.

ghost use Rattle.std.specs.Prelude.{◌≡◌, [], ◌∷◌, ◌++◌, replicate};
ghost use Rattle.sink.specs.Fault.{fault_for, Answers, Leaves};
ghost use Rattle.sink.specs.Rule.{told};

use crate::fault::{Refusal, SinkFault};
use crate::sink::Sink;

// The fault of a refusal by a sink S, where a print of length `text` stands.
pub fn sink_fault<S: Sink>(refusal: Refusal, text: usize) -> SinkFault
    ensures { result ≡ fault_for (told S.Sink.kind refusal) text }
{
    match refusal {
        Refusal::Own(number) => SinkFault {
            number,
            kind: S::kind(),
            text,
        },
        Refusal::Below { number, kind } => SinkFault { number, kind, text },
    }
}

// Writes one byte.
fn write_byte<S: Sink>(sink: &mut S, older: usize, byte: u8) -> Result<(), SinkFault>
    ensures rule { S.Sink.rule sink.new ≡ S.Sink.rule sink.old }
    ensures later { S.Sink.later sink.old sink.new }
    ensures text { Leaves S.Sink.text S.Sink.rule sink.old (byte ∷ []) sink.new }
    ensures cases { Answers S.Sink.text S.Sink.rule sink.old (byte ∷ []) older result }
{
    sink.put(byte).map_err(|refusal| sink_fault::<S>(refusal, sink.len().saturating_sub(older)))
}

// Writes a run of bytes. `older` is the length of the text that stood before this print; it and the sink stay two parameters, since a struct
// that borrows the sink for each call is no plainer.
pub fn write<S: Sink>(sink: &mut S, older: usize, bytes: &[u8]) -> Result<(), SinkFault>
    ensures rule { S.Sink.rule sink.new ≡ S.Sink.rule sink.old }
    ensures later { S.Sink.later sink.old sink.new }
    ensures text { Leaves S.Sink.text S.Sink.rule sink.old bytes.now sink.new }
    ensures cases { Answers S.Sink.text S.Sink.rule sink.old bytes.now older result }
{
    for &byte in bytes {
        write_byte(sink, older, byte)?;
    }
    Ok(())
}

// Writes one run behind another, as one run.
pub fn write_both<S: Sink>(
    sink: &mut S,
    older: usize,
    first: &[u8],
    second: &[u8],
) -> Result<(), SinkFault>
    ensures rule { S.Sink.rule sink.new ≡ S.Sink.rule sink.old }
    ensures later { S.Sink.later sink.old sink.new }
    ensures text { Leaves S.Sink.text S.Sink.rule sink.old (first.now ++ second.now) sink.new }
    ensures cases { Answers S.Sink.text S.Sink.rule sink.old (first.now ++ second.now) older result }
{
    write(sink, older, first)?;
    write(sink, older, second)
}

const BLANKS: [u8; 255] = [b' '; 255];

// n blanks
fn blanks(n: u8) -> &'static [u8]
    ensures { result.now ≡ replicate n 32 }
{
    &BLANKS[..n as usize]
}

// Writes n blanks, as one run.
pub fn write_blanks<S: Sink>(sink: &mut S, older: usize, n: u8) -> Result<(), SinkFault>
    ensures rule { S.Sink.rule sink.new ≡ S.Sink.rule sink.old }
    ensures later { S.Sink.later sink.old sink.new }
    ensures text { Leaves S.Sink.text S.Sink.rule sink.old (replicate n 32) sink.new }
    ensures cases { Answers S.Sink.text S.Sink.rule sink.old (replicate n 32) older result }
{
    write(sink, older, blanks(n))
}

// Writes a newline and n blanks, as one run.
pub fn write_line<S: Sink>(sink: &mut S, older: usize, n: u8) -> Result<(), SinkFault>
    ensures rule { S.Sink.rule sink.new ≡ S.Sink.rule sink.old }
    ensures later { S.Sink.later sink.old sink.new }
    ensures text { Leaves S.Sink.text S.Sink.rule sink.old (10 ∷ replicate n 32) sink.new }
    ensures cases { Answers S.Sink.text S.Sink.rule sink.old (10 ∷ replicate n 32) older result }
{
    write_both(sink, older, b"\n", blanks(n))
}
