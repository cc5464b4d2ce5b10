// Tokens go from the front.
ghost use Rattle.std.specs.Prelude.{◌≡◌, ℕ, suc, ◌≤◌, List, ◌∷◌, ◌++◌, length, take};
ghost use Rattle.layout.specs.Tokens.{Token, widths};
ghost use Rattle.stream.specs.Recorded.{deeper, texts};
ghost use Rattle.scan.specs.Holding.{Holds};
ghost use Rattle.scan.specs.First.{First, places_of, bytes_of, columns_of};

use crate::scan::Scan;
use stream::record::{Held, Slot};

impl Scan {
    // How many tokens are held.
    pub fn count(&self) -> usize
        ensures value { (k d : ℕ) (h : List Token) → Holds k d h self.now → result ≡ length h }
        ensures most { result ≤ 384 }
    {
        self.slots.len()
    }

    // The columns that they take on one line.
    pub fn width(&self) -> u16
        ensures { (k d : ℕ) (h : List Token) → Holds k d h self.now → result ≡ widths h }
    {
        self.total.wrapping_sub(self.base)
    }

    // The record of the first token.
    pub fn first(&self) -> Option<Slot>
        ensures { (k d : ℕ) (h : List Token) → Holds k d h self.now → First h result }
    {
        self.slots.front()
    }

    // The first n text bytes, in at most two runs.
    pub fn text(&self, n: usize) -> (&[u8], &[u8])
        ensures { (k d : ℕ) (h : List Token) → Holds k d h self.now → result.0.now ++ result.1.now ≡ take n (texts h) }
    {
        self.texts.front_runs(n)
    }

    // The first token goes.
    pub fn drop_first(&mut self)
        ensures { (k d : ℕ) (t : Token) (ts : List Token) → Holds k d (t ∷ ts) self.old → Holds (suc k) (deeper d t) ts self.new }
    {
        let Some(slot) = self.slots.pop_front() else {
            return;
        };
        self.places.drop_front(places_of(slot.size));
        self.texts.drop_front(bytes_of(slot.token));
        self.base = self.base.wrapping_add(columns_of(slot.token));
        self.serial = self.serial.wrapping_add(1);
    }
}

// How many places go with a record.
fn places_of(size: Option<u16>) -> usize
    ensures { result ≡ places_of size }
{
    usize::from(size.is_none())
}

// How many text bytes go with a record.
fn bytes_of(token: Held) -> usize
    ensures { result ≡ bytes_of token }
{
    match token {
        Held::Text(n) => usize::from(n),
        _ => 0,
    }
}

// How many columns go with a record.
fn columns_of(token: Held) -> u16
    ensures { result ≡ columns_of token }
{
    match token {
        Held::Text(n) => n,
        Held::Break(token) => u16::from(token.blanks),
        Held::Opening(_) | Held::Ending => 0,
    }
}
