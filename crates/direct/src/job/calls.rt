// The calls of an open job. Each says what it answers and where the job stands then, for every list of
// calls before it.
ghost use Rattle.std.specs.Prelude.{◌≡◌, ℕ, ◌<◌, ◌≤◌, true, false, List, [], ◌∷◌, ◌++◌};
ghost use Rattle.layout.specs.View.{view};
ghost use Rattle.direct.specs.Calls.{Call, call_token, in_range, meets, text_call, break_call, opening_call, ending_call};
ghost use Rattle.direct.specs.Course.{Start, course, answer};
ghost use Rattle.direct.specs.Standing.{seen, Stands, Called, Ready, PlainCall, Received};

use crate::fault::DirectFault;
use crate::job::ranges::{is_break, is_opening, is_text};
use crate::job::{DirectJob, TOKENS};
use crate::receipt::Receipt;
use arrayvec::ArrayVec;
use layout::margin::Margin;
use layout::token::{Break, Opening, Token};
use printer::printer::Printer;
use sink::sink::Sink;

impl<S: Sink> DirectJob<S> {
    // Opens a job on a sink, which may hold older text.
    pub fn open(sink: S, margin: Margin, number: u32) -> DirectJob<S>
        ensures stands { Stands (record { job = number; margin = margin.columns; rule = S.Sink.rule sink; older = S.Sink.text sink }) [] (seen S.Sink.text S.Sink.rule result) }
        ensures sink { result.sink ≡ sink }
    {
        let older = sink.len();
        DirectJob {
            sink,
            printer: Printer::new(margin, older),
            number,
            given: 0,
            blocks: ArrayVec::new(),
            fault: None,
        }
    }

    // Hands in a Text.
    pub fn text(&mut self, bytes: &[u8]) -> Result<(), DirectFault>
        ensures later { S.Sink.later self.old.sink self.new.sink }
        ensures stands { (s : Start) (calls : List Call) → Stands s calls (seen S.Sink.text S.Sink.rule self.old) → Called s calls (text_call bytes.now) (seen S.Sink.text S.Sink.rule self.new) result (self.new.sink ≡ self.old.sink) }
    {
        self.put(Token::Text(bytes), is_text(bytes))
    }

    // Hands in a Break.
    pub fn break_at(&mut self, gap: Break) -> Result<(), DirectFault>
        ensures later { S.Sink.later self.old.sink self.new.sink }
        ensures stands { (s : Start) (calls : List Call) → Stands s calls (seen S.Sink.text S.Sink.rule self.old) → Called s calls (break_call gap.blanks gap.offset) (seen S.Sink.text S.Sink.rule self.new) result (self.new.sink ≡ self.old.sink) }
    {
        self.put(Token::Break(gap), is_break(gap))
    }

    // Hands in an Opening, and gives the receipt of its block.
    pub fn open_block(&mut self, opening: Opening) -> Result<Receipt, DirectFault>
        ensures later { S.Sink.later self.old.sink self.new.sink }
        ensures stands { (s : Start) (calls : List Call) → Stands s calls (seen S.Sink.text S.Sink.rule self.old) → Called s calls (opening_call opening.offset opening.fold opening.anchor) (seen S.Sink.text S.Sink.rule self.new) (answer s (course s calls) (opening_call opening.offset opening.fold opening.anchor)) (self.new.sink ≡ self.old.sink) × Received s (course s calls) (answer s (course s calls) (opening_call opening.offset opening.fold opening.anchor)) result }
    {
        self.ready()?;
        let token = self.given;
        if !is_opening(opening) {
            return Err(DirectFault::Range {
                token: u64::from(token),
            });
        }
        if self.blocks.is_full() {
            return Err(DirectFault::Blocks {
                token: u64::from(token),
            });
        }
        self.take(Token::Opening(opening))?;
        self.blocks.push(token);
        Ok(Receipt {
            job: self.number,
            token,
        })
    }

    // Hands in an Ending, and takes the receipt of its block, refused or not.
    pub fn end_block(&mut self, receipt: Receipt) -> Result<(), DirectFault>
        ensures later { S.Sink.later self.old.sink self.new.sink }
        ensures stands { (s : Start) (calls : List Call) → Stands s calls (seen S.Sink.text S.Sink.rule self.old) → Called s calls (ending_call receipt.job receipt.token) (seen S.Sink.text S.Sink.rule self.new) result (self.new.sink ≡ self.old.sink) }
    {
        let Receipt { job, token } = receipt;
        self.ready()?;
        if !self.meets(job, token) {
            return self.breaks(DirectFault::Receipt {
                token: u64::from(self.given),
            });
        }
        self.take(Token::Ending)?;
        self.blocks.pop();
        Ok(())
    }

    // Hands in a Text or a Break, given whether it is in range.
    fn put(&mut self, token: Token<&[u8]>, fits: bool) -> Result<(), DirectFault>
        ensures later { S.Sink.later self.old.sink self.new.sink }
        ensures stands { (s : Start) (calls : List Call) (c : Call) → Stands s calls (seen S.Sink.text S.Sink.rule self.old) → call_token c ≡ view token.entry → in_range c ≡ fits → PlainCall c → Called s calls c (seen S.Sink.text S.Sink.rule self.new) result (self.new.sink ≡ self.old.sink) }
    {
        self.ready()?;
        if !fits {
            return Err(DirectFault::Range {
                token: u64::from(self.given),
            });
        }
        self.take(token)
    }

    // Goes the job on, and is there a token more to be had for it?
    fn ready(&mut self) -> Result<(), DirectFault>
        ensures sink { self.new.sink ≡ self.old.sink }
        ensures stands { (s : Start) (calls : List Call) → Stands s calls (seen S.Sink.text S.Sink.rule self.old) → Ready s calls (seen S.Sink.text S.Sink.rule self.new) (self.new.sink ≡ self.old.sink) result }
    {
        if let Some(fault) = self.fault {
            return Err(fault);
        }
        if self.given >= TOKENS {
            return self.breaks(DirectFault::Tokens {
                token: u64::from(self.given),
            });
        }
        Ok(())
    }

    // Are these the numbers of the job and of the innermost open block?
    fn meets(&self, job: u32, token: u32) -> bool
        ensures { result ≡ meets (seen S.Sink.text S.Sink.rule self.now).blocks self.now.number job token }
    {
        job == self.number && self.blocks.last() == Some(&token)
    }
}
