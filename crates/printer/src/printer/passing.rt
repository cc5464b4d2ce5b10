// Tokens pass: the first one is written as soon as it may be.
ghost use Rattle.std.specs.Prelude.{◌≡◌, ℕ, suc, ◌+◌, ◌<◌, ◌≤◌, true, List, [], ◌∷◌, ◌++◌, length};
ghost use Rattle.lines.specs.Lines.{newlines};
ghost use Rattle.layout.specs.Tokens.{Token as LayoutToken, Text, Break as Gap};
ghost use Rattle.layout.specs.Layout.{Pen as LayoutPen, writes, after};
ghost use Rattle.layout.specs.Passing.{pass};
ghost use Rattle.stream.specs.Recorded.{shape};
ghost use Rattle.scan.specs.Holding.{Holds};
ghost use Rattle.pen.specs.At.{At};
ghost use Rattle.printer.specs.Printing.{Prints, Turned, Moved, Stepped, Advanced, Passes};

use crate::fault::{PrinterFault, at_token};
use crate::printer::Printer;
use crate::write::write_breaking;
use layout::token::{Break, Token};
use sink::fault::SinkFault;
use sink::sink::Sink;
use sink::write::write_both;

impl Printer {
    // Passes all tokens that may pass, given whether the document has ended.
    pub(crate) fn pass_all<S: Sink>(&mut self, sink: &mut S, over: bool) -> Result<(), PrinterFault>
        ensures rule { S.Sink.rule sink.new ≡ S.Sink.rule sink.old }
        ensures later { S.Sink.later sink.old sink.new }
        ensures older { self.new.older ≡ self.old.older }
        ensures passes { (m : ℕ) (pen : LayoutPen) (h : List LayoutToken) (number : ℕ) (out : List ℕ) → Prints m pen h number out self.old → Passes over m pen h number out (S.Sink.rule sink.old) (S.Sink.text sink.old) self.old.older (S.Sink.text sink.new) self.new result }
    {
        let held = self.scan.count();
        // Each turn passes a token, so it takes no more turns than tokens are held; none is counted by hand.
        for _ in 0..held {
            if !self.pass_first(sink, over)? {
                return Ok(());
            }
        }
        Ok(())
    }

    // Passes the first token, if it may pass.
    fn pass_first<S: Sink>(&mut self, sink: &mut S, over: bool) -> Result<bool, PrinterFault>
        ensures rule { S.Sink.rule sink.new ≡ S.Sink.rule sink.old }
        ensures later { S.Sink.later sink.old sink.new }
        ensures older { self.new.older ≡ self.old.older }
        ensures passes { (m : ℕ) (pen : LayoutPen) (h : List LayoutToken) (number : ℕ) (out : List ℕ) → Prints m pen h number out self.old → Advanced over m pen h number out (S.Sink.rule sink.old) (S.Sink.text sink.old) self.old.older (S.Sink.text sink.new) self.new result }
    {
        let Some((first, fits)) = self.turn(over) else {
            return Ok(false);
        };
        let number = self.passed;
        at_token(self.write_first(sink, first, fits), number)?;
        self.scan.drop_first();
        self.passed = number.saturating_add(1);
        Ok(true)
    }

    // The first token, if it passes now, with whether it fits; given whether the document has ended.
    fn turn(&self, over: bool) -> Option<(Token<u16>, bool)>
        ensures { (m : ℕ) (pen : LayoutPen) (h : List LayoutToken) (number : ℕ) (out : List ℕ) → Prints m pen h number out self.now → Turned over m pen h result }
    {
        let slot = self.scan.first()?;
        let fits = self.pen.fits(slot.size.unwrap_or(self.scan.width()));
        if slot.size.is_none() && !over && fits {
            return None;
        }
        Some((slot.token, fits))
    }

    // Writes the first token, and moves the pen on.
    fn write_first<S: Sink>(
        &mut self,
        sink: &mut S,
        token: Token<u16>,
        fits: bool,
    ) -> Result<(), SinkFault>
        ensures rule { S.Sink.rule sink.new ≡ S.Sink.rule sink.old }
        ensures later { S.Sink.later sink.old sink.new }
        ensures older { self.new.older ≡ self.old.older }
        ensures writes { (m : ℕ) (pen : LayoutPen) (t : LayoutToken) (ts : List LayoutToken) (number : ℕ) (out : List ℕ) → Prints m pen (t ∷ ts) number out self.old → token ≡ shape t → Stepped (S.Sink.rule sink.old) (S.Sink.text sink.old) (writes m pen t fits) self.old.older (S.Sink.text sink.new) (Moved m (after m pen t fits) (out ++ writes m pen t fits) self.old self.new) result }
    {
        match token {
            Token::Text(n) => self.write_text(sink, n),
            Token::Break(gap) => self.write_break(sink, gap, fits),
            Token::Opening(opening) => {
                self.pen.open_block(opening, fits);
                Ok(())
            }
            Token::Ending => {
                self.pen.end_block();
                Ok(())
            }
        }
    }

    // Writes the first n text bytes that are held.
    fn write_text<S: Sink>(&mut self, sink: &mut S, n: u16) -> Result<(), SinkFault>
        ensures rule { S.Sink.rule sink.new ≡ S.Sink.rule sink.old }
        ensures later { S.Sink.later sink.old sink.new }
        ensures older { self.new.older ≡ self.old.older }
        ensures writes { (m : ℕ) (pen : LayoutPen) (bytes : List ℕ) (ts : List LayoutToken) (number : ℕ) (out : List ℕ) → Prints m pen (Text bytes ∷ ts) number out self.old → n ≡ length bytes → Stepped (S.Sink.rule sink.old) (S.Sink.text sink.old) bytes self.old.older (S.Sink.text sink.new) (Moved m (record { column = pen.column + length bytes; blocks = pen.blocks }) (out ++ bytes) self.old self.new) result }
    {
        let (first, second) = self.scan.text(n as usize);
        write_both(sink, self.older, first, second)?;
        self.pen.wrote(n);
        Ok(())
    }

    // Decides how a Break is written, and writes it.
    fn write_break<S: Sink>(
        &mut self,
        sink: &mut S,
        gap: Break,
        fits: bool,
    ) -> Result<(), SinkFault>
        ensures rule { S.Sink.rule sink.new ≡ S.Sink.rule sink.old }
        ensures later { S.Sink.later sink.old sink.new }
        ensures older { self.new.older ≡ self.old.older }
        ensures writes { (m : ℕ) (pen : LayoutPen) (out : List ℕ) → At m pen out self.old.pen → Stepped (S.Sink.rule sink.old) (S.Sink.text sink.old) (writes m pen (Gap gap.blanks gap.offset) fits) self.old.older (S.Sink.text sink.new) (Moved m (after m pen (Gap gap.blanks gap.offset) fits) (out ++ writes m pen (Gap gap.blanks gap.offset) fits) self.old self.new) result }
    {
        let how = self.pen.break_as(gap, fits);
        write_breaking(sink, self.older, how)?;
        self.pen.broke(how);
        Ok(())
    }
}
