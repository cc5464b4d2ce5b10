// Tokens come in at the back.
ghost use Rattle.std.specs.Prelude.{◌≡◌, ℕ, suc, ◌+◌, ◌<◌, ◌≤◌, true, List, [], ◌∷◌, ◌++◌, length, IfSome, MatchBool, slice_get, slice_set};
ghost use Rattle.queue.specs.Items.{items};
ghost use Rattle.layout.specs.Tokens.{Token, Text, Break, Opening, Ending, widths, nest};
ghost use Rattle.stream.specs.Recorded.{texts, place};
ghost use Rattle.stream.specs.Settling.{keeps};
ghost use Rattle.scan.specs.Holding.{Counts, Holds, Settling};

use crate::scan::{MOST_BYTES, Scan};
use layout::token;
use queue::Queue;
use stream::record::{Held, Place, Slot};

impl Scan {
    // Nothing is held.
    pub fn new() -> Scan
        ensures { Holds 0 0 [] result }
    {
        let blank = Slot {
            token: Held::Ending,
            size: None,
        };
        Scan {
            slots: Queue::new(blank),
            texts: Queue::new(0),
            places: Queue::new(Place::default()),
            depth: 0,
            total: 0,
            base: 0,
            serial: 0,
        }
    }

    // A Text comes: its bytes wait beside its record.
    pub fn push_text(&mut self, bytes: &[u8])
        ensures { (k d : ℕ) (h : List Token) → Holds k d h self.old → length h < 384 → length (texts h) + length bytes.now ≤ 512 → widths h + length bytes.now < 65536 → Holds k d (h ++ Text bytes.now ∷ []) self.new }
    {
        let width = bytes.len().min(MOST_BYTES) as u16;
        self.push_free(Held::Text(width));
        let _ = self.texts.push_all(bytes);
        self.total = self.total.wrapping_add(width);
    }

    // A Break comes: it is the reach of the tokens that it settles, and waits for its own.
    pub fn push_break(&mut self, token: token::Break)
        ensures { (k d : ℕ) (h : List Token) → Holds k d h self.old → length h < 384 → widths h + token.blanks < 65536 → Holds k d (h ++ Break token.blanks token.offset ∷ []) self.new }
    {
        self.settle();
        self.push_waiting(Held::Break(token));
        self.total = self.total.wrapping_add(u16::from(token.blanks));
    }

    // An Opening comes: it waits for its reach, and one block more is open.
    pub fn push_opening(&mut self, token: token::Opening)
        ensures { (k d : ℕ) (h : List Token) → Holds k d h self.old → length h < 384 → nest d h < 255 → Holds k d (h ++ Opening token.offset token.fold token.anchor ∷ []) self.new }
    {
        self.push_waiting(Held::Opening(token));
        self.depth = self.depth.saturating_add(1);
    }

    // An Ending comes: one block fewer is open.
    pub fn push_ending(&mut self)
        ensures { (k d : ℕ) (h : List Token) → Holds k d h self.old → length h < 384 → Holds k d (h ++ Ending ∷ []) self.new }
    {
        self.push_free(Held::Ending);
        self.depth = self.depth.saturating_sub(1);
    }

    // The record of a token that waits for nothing.
    fn push_free(&mut self, token: Held)
        ensures slots { length (items self.old.slots) < 384 → items self.new.slots ≡ items self.old.slots ++ (record { token = token; size = Some 0 }) ∷ [] }
        ensures others { self.new ≡ record self.old { slots = self.new.slots } }
    {
        let _ = self.slots.push_back(Slot {
            token,
            size: Some(0),
        });
    }

    // The record and the place of a token that waits for its reach.
    fn push_waiting(&mut self, token: Held)
        ensures slots { length (items self.old.slots) < 384 → items self.new.slots ≡ items self.old.slots ++ (record { token = token; size = None }) ∷ [] }
        ensures places { (k b d : ℕ) (h : List Token) → Counts k b d h self.old → length (items self.old.slots) ≡ length h → length (items self.old.places) ≤ length h → length h < 384 → items self.new.places ≡ items self.old.places ++ place (k + length h) (b + widths h) (nest d h) ∷ [] }
        ensures others { self.new ≡ record self.old { slots = self.new.slots; places = self.new.places } }
    {
        let place = self.next_place();
        let _ = self.slots.push_back(Slot { token, size: None });
        let _ = self.places.push_back(place);
    }

    // The place of the token that comes next.
    fn next_place(&self) -> Place
        ensures { (k b d : ℕ) (h : List Token) → Counts k b d h self.now → length (items self.now.slots) ≡ length h → result ≡ place (k + length h) (b + widths h) (nest d h) }
    {
        Place {
            serial: self.serial.wrapping_add(self.slots.len() as u16),
            since: self.total,
            depth: self.depth,
        }
    }

    // Settles every token that a Break is now the reach of.
    fn settle(&mut self)
        ensures { (k d : ℕ) (h : List Token) → Holds k d h self.old → ((b : ℕ) × Settling k b d h (keeps h) self.new) }
    {
        while self.settle_last() {}
    }

    // Settles the last waiting token, if no block is open that was opened at it or after it.
    fn settle_last(&mut self) -> bool
        ensures settles { (k b d : ℕ) (h : List Token) (c : ℕ) → Settling k b d h c self.old → MatchBool result ((n : ℕ) × (c ≡ suc n) × Settling k b d h n self.new) ((c ≡ keeps h) × Settling k b d h c self.new) }
        ensures fewer { result ≡ true → length (items self.new.places) < length (items self.old.places) }
    {
        let Some(place) = self.places.back() else {
            return false;
        };
        if place.depth < self.depth {
            return false;
        }
        self.places.pop_back();
        let at = usize::from(place.serial.wrapping_sub(self.serial));
        let size = self.total.wrapping_sub(place.since);
        self.know_size(at, size);
        true
    }

    // The size of the token that has `at` others before it is known.
    fn know_size(&mut self, at: usize, size: u16)
        ensures sized { IfSome (slice_get (items self.old.slots) at) (λ slot. items self.new.slots ≡ slice_set (items self.old.slots) at (record slot { size = Some size })) }
        ensures others { self.new ≡ record self.old { slots = self.new.slots } }
        ensures most { length (items self.old.slots) ≤ 384 }
    {
        if let Some(slot) = self.slots.get(at) {
            let size = Some(size);
            self.slots.replace(at, Slot { size, ..slot });
        }
    }
}
