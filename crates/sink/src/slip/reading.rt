// How a slip is read: line by line.

ghost use Rattle.std.specs.Prelude.{◌≡◌, ◌<◌, ◌≤◌, [], length, MatchOption, slice_index_or};
ghost use Rattle.lines.specs.Lines.{lines};
ghost use Rattle.sink.specs.SlipLaws.{text_of};

use super::Slip;

impl Slip {
    // The i-th line of the text, if it has so many.
    pub fn row(&self, i: usize) -> Option<&[u8]>
        ensures { MatchOption result (length (lines (text_of self.now)) ≤ i) (λ s. (i < length (lines (text_of self.now))) × (s.now ≡ slice_index_or (lines (text_of self.now)) i [])) }
    {
        self.rows.as_slice().get(i).map(|row| row.as_slice())
    }
}
