// The bytes of the word under way, or of the collected word that is over: at most 255.
ghost use Rattle.std.specs.Prelude.{◌≡◌, ◌≤◌, [], ◌∷◌, ◌++◌, length};
ghost use Rattle.reader.specs.Goes.{Collected};

use crate::reader::MOST_BYTES;
use grammar::refusal::Refusal;
use std::marker::Model;

// An array and its length, and not an `ArrayVec`: that blanks all that it held when it is cleared, so the
// byte that begins a word would cost as many as the word before it had. Here each byte costs the same.
#[derive(Drop)]
pub(crate) struct Bytes {
    cells: [u8; MOST_BYTES],
    len: usize,
}

impl Model for Bytes {
    ghost use Rattle.std.specs.Prelude.{ℕ, ◌≤◌, List, take};

    ghost Value = { List ℕ };

    ghost view = { λ b. take b.len b.cells };

    ghost invariant = { λ b. b.len ≤ 255 };
}

impl Bytes {
    // No byte.
    pub(crate) fn new() -> Bytes
        ensures { result ≡ [] }
    {
        Bytes {
            cells: [0; MOST_BYTES],
            len: 0,
        }
    }

    // The bytes.
    pub(crate) fn as_slice(&self) -> &[u8]
        ensures value { result.now ≡ self.now }
        ensures few { length result.now ≤ 255 }
    {
        &self.cells[..self.len]
    }

    // Begins with this byte, and forgets the others.
    pub(crate) fn begin(&mut self, first: u8)
        ensures { self.new ≡ first ∷ [] }
    {
        self.cells[0] = first;
        self.len = 1;
    }

    // Collects a byte more, unless the word would be too long.
    pub(crate) fn collect(&mut self, byte: u8) -> Result<(), Refusal>
        ensures { Collected self.old (self.old ++ byte ∷ []) self.new result }
    {
        if self.len == MOST_BYTES {
            return Err(Refusal::LongWord);
        }
        self.cells[self.len] = byte;
        self.len += 1;
        Ok(())
    }
}
