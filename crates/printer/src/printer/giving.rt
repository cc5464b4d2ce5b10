// Tokens come in: each is held back or passes, and with it all others that may.
ghost use Rattle.std.specs.Prelude.{◌≡◌, ℕ, ◌+◌, ◌<◌, ◌≤◌, List, [], ◌∷◌, ◌++◌, length};
ghost use Rattle.layout.specs.Tokens.{Token as LayoutToken, widths};
ghost use Rattle.layout.specs.View.{view};
ghost use Rattle.layout.specs.Layout.{Pen as LayoutPen, start};
ghost use Rattle.printer.specs.Printing.{Prints};
ghost use Rattle.printer.specs.Giving.{Room, Next, Given, Ended, Finished};

use crate::fault::{PrinterFault, at_token};
use crate::printer::Printer;
use layout::margin::Margin;
use layout::token::Token;
use pen::breaking::Breaking;
use pen::pen::Pen;
use scan::scan::{MOST, Scan};
use sink::sink::Sink;
use sink::write::write_line;

impl Printer {
    // A printer that has taken no token yet, behind an older text of that length.
    pub fn new(margin: Margin, older: usize) -> Printer
        ensures prints { Prints margin.columns start [] 0 [] result }
        ensures older { result.older ≡ older }
    {
        Printer {
            scan: Scan::new(),
            pen: Pen::new(margin),
            passed: 0,
            older,
        }
    }

    // A token comes.
    pub fn give<S: Sink>(&mut self, sink: &mut S, token: Token<&[u8]>) -> Result<(), PrinterFault>
        ensures rule { S.Sink.rule sink.new ≡ S.Sink.rule sink.old }
        ensures later { S.Sink.later sink.old sink.new }
        ensures older { self.new.older ≡ self.old.older }
        ensures gives { (m : ℕ) (pen : LayoutPen) (h : List LayoutToken) (number : ℕ) (out : List ℕ) → Prints m pen h number out self.old → widths h ≤ 120 → Next (length pen.blocks) h (view token.entry) → Given m pen h number out (view token.entry) (S.Sink.rule sink.old) (S.Sink.text sink.old) self.old.older (S.Sink.text sink.new) self.new ((self.new ≡ self.old) × (sink.new ≡ sink.old)) result }
    {
        self.room()?;
        self.hold(token);
        self.pass_all(sink, false)
    }

    // The document ends: all tokens pass, and a newline behind them if there was one.
    pub fn finish<S: Sink>(&mut self, sink: &mut S) -> Result<(), PrinterFault>
        ensures rule { S.Sink.rule sink.new ≡ S.Sink.rule sink.old }
        ensures later { S.Sink.later sink.old sink.new }
        ensures older { self.new.older ≡ self.old.older }
        ensures finishes { (m : ℕ) (pen : LayoutPen) (h : List LayoutToken) (number : ℕ) (out : List ℕ) → Prints m pen h number out self.old → Finished m pen h number out (S.Sink.rule sink.old) (S.Sink.text sink.old) self.old.older (S.Sink.text sink.new) self.new.pen result }
    {
        self.pass_all(sink, true)?;
        self.end_line(sink)
    }

    // Holds a token back, behind the others.
    fn hold(&mut self, token: Token<&[u8]>)
        ensures older { self.new.older ≡ self.old.older }
        ensures holds { (m : ℕ) (pen : LayoutPen) (h : List LayoutToken) (number : ℕ) (out : List ℕ) → Prints m pen h number out self.old → length h < 384 → widths h ≤ 120 → Next (length pen.blocks) h (view token.entry) → Prints m pen (h ++ view token.entry ∷ []) number out self.new }
    {
        match token {
            Token::Text(bytes) => self.scan.push_text(bytes),
            Token::Break(gap) => self.scan.push_break(gap),
            Token::Opening(opening) => self.scan.push_opening(opening),
            Token::Ending => self.scan.push_ending(),
        }
    }

    // Is there room for one token more?
    fn room(&self) -> Result<(), PrinterFault>
        ensures { (m : ℕ) (pen : LayoutPen) (h : List LayoutToken) (number : ℕ) (out : List ℕ) → Prints m pen h number out self.now → Room h number result }
    {
        if self.scan.count() >= MOST {
            return Err(PrinterFault::Full {
                token: self.passed.saturating_add(MOST as u64),
            });
        }
        Ok(())
    }

    // Writes the newline at the end, if there was a token.
    fn end_line<S: Sink>(&mut self, sink: &mut S) -> Result<(), PrinterFault>
        ensures rule { S.Sink.rule sink.new ≡ S.Sink.rule sink.old }
        ensures later { S.Sink.later sink.old sink.new }
        ensures older { self.new.older ≡ self.old.older }
        ensures ends { (m : ℕ) (pen : LayoutPen) (h : List LayoutToken) (number : ℕ) (out : List ℕ) → Prints m pen h number out self.old → Ended m number out (S.Sink.rule sink.old) (S.Sink.text sink.old) self.old.older (S.Sink.text sink.new) self.new.pen result }
    {
        if self.passed == 0 {
            return Ok(());
        }
        at_token(write_line(sink, self.older, 0), self.passed)?;
        self.pen.broke(Breaking::Line(0));
        Ok(())
    }
}
