// What a pen answers and how it moves on, in the words of the layout: whether a size fits, how a
// Break is written, and where writing stands after each token. Every call is total: what it means is
// said of a pen that stands where the layout's pen stands. That stays a premise: the layout's column
// without a limit and the text written are in no field.
ghost use Rattle.std.specs.Prelude.{◌≡◌, ℕ, ◌+◌, ◌<◌, ◌≤◌, Bool, List, [], ◌++◌, length, nat_le};
ghost use Rattle.layout.specs.Layout.{Pen as LayoutPen, start, innermost, fold_of, base_of, after};
ghost use Rattle.layout.specs.Tokens.{Opening as OpeningToken, Ending as EndingToken};
ghost use Rattle.lines.specs.Lines.{newlines};
ghost use Rattle.pen.specs.At.{At, open_blocks, breaking, bytes_of, column_after};

use crate::breaking::Breaking;
use crate::indent::indentation;
use crate::pen::Pen;
use layout::margin::Margin;
use layout::token::{Anchor, Block, Break, Fold, Opening};
use queue::Queue;

impl Pen {
    // The pen before anything is written.
    pub fn new(margin: Margin) -> Pen
        ensures { At margin.columns start [] result }
    {
        Pen {
            margin,
            column: 0,
            widest: 0,
            newlines: 0,
            blocks: Queue::new(Block::OUTERMOST),
        }
    }

    // Is the column plus this size within the margin?
    pub fn fits(&self, size: u16) -> bool
        ensures { (m : ℕ) (pen : LayoutPen) (out : List ℕ) → At m pen out self.now → result ≡ nat_le (pen.column + size) m }
    {
        self.column.saturating_add(size) <= self.margin.columns() as u16
    }

    // How a Break is written, given whether it fits.
    pub fn break_as(&self, gap: Break, fits: bool) -> Breaking
        ensures { (m : ℕ) (pen : LayoutPen) (out : List ℕ) → At m pen out self.now → result ≡ breaking m pen gap.blanks gap.offset fits }
    {
        let block = self.current();
        let stays = match block.fold {
            None => true,
            Some(Fold::All) => false,
            Some(Fold::Each) => fits,
        };
        if stays {
            Breaking::Blanks(gap.blanks)
        } else {
            Breaking::Line(indentation(block.indent as u16, gap.offset, self.margin))
        }
    }

    // Text of n bytes without a newline was written.
    pub fn wrote(&mut self, n: u16)
        ensures { (m : ℕ) (pen : LayoutPen) (out bytes : List ℕ) → At m pen out self.old → length bytes ≡ n → newlines bytes ≡ 0 → At m (record { column = pen.column + length bytes; blocks = pen.blocks }) (out ++ bytes) self.new }
    {
        self.column = self.column.saturating_add(n);
        self.widest = self.widest.max(self.column);
    }

    // A Break was written in this way.
    pub fn broke(&mut self, how: Breaking)
        ensures { (m : ℕ) (pen : LayoutPen) (out : List ℕ) → At m pen out self.old → At m (record { column = column_after pen.column how; blocks = pen.blocks }) (out ++ bytes_of how) self.new }
    {
        match how {
            Breaking::Blanks(n) => self.wrote(n as u16),
            Breaking::Line(k) => {
                self.column = k as u16;
                self.widest = self.widest.max(self.column);
                self.newlines = self.newlines.saturating_add(1);
            }
        }
    }

    // A block opens here. Where 64 are open, nothing changes.
    pub fn open_block(&mut self, opening: Opening, fits: bool)
        ensures opens { (m : ℕ) (pen : LayoutPen) (out : List ℕ) → At m pen out self.old → length pen.blocks < 64 → At m (after m pen (OpeningToken opening.offset opening.fold opening.anchor) fits) out self.new }
        ensures full { (m : ℕ) (pen : LayoutPen) (out : List ℕ) → At m pen out self.old → 64 ≤ length pen.blocks → self.new ≡ self.old }
    {
        let base = self.base(opening.anchor);
        let _ = self.blocks.push_back(Block {
            fold: fold_of(fits, opening.fold),
            indent: indentation(base, opening.offset, self.margin),
        });
    }

    // The last open block ends. Where none is open, nothing changes.
    pub fn end_block(&mut self)
        ensures { (m : ℕ) (pen : LayoutPen) (out : List ℕ) (fits : Bool) → At m pen out self.old → At m (after m pen EndingToken fits) out self.new }
    {
        self.blocks.pop_back();
    }

    // The innermost open block, or the outermost one where none is open.
    fn current(&self) -> Block
        ensures { result ≡ innermost (open_blocks self.now) }
    {
        self.blocks.back().unwrap_or(Block::OUTERMOST)
    }

    // The base of the indentation of a block that opens here.
    fn base(&self, anchor: Anchor) -> u16
        ensures { result ≡ base_of (record { column = self.now.column; blocks = open_blocks self.now }) anchor }
    {
        match anchor {
            Anchor::Column => self.column,
            Anchor::Indent => self.current().indent as u16,
        }
    }
}

// A block that fits lies flat, any other has its own fold.
fn fold_of(fits: bool, fold: Fold) -> Option<Fold>
    ensures { result ≡ fold_of fits fold }
{
    (!fits).then_some(fold)
}
