// The margin that lines are laid out to: a number of columns from 16 to 120. No other exists.
ghost use Rattle.std.specs.Prelude.{◌≡◌, ◌≤◌};

use crate::fault::MarginFault;

#[derive(Clone, Copy, PartialEq, Eq, Debug)]
pub struct Margin {
    columns: u8,
    ghost least: { 16 ≤ columns },
    ghost most: { columns ≤ 120 },
}

impl Margin {
    // Its columns.
    pub fn columns(&self) -> u8
        ensures value { result ≡ self.now.columns }
        ensures least { 16 ≤ result }
        ensures most { result ≤ 120 }
    {
        self.columns
    }
}

// The margin of that many columns, or the refusal 1 where they are not 16 to 120.
impl TryFrom<u32> for Margin {
    ghost use Rattle.layout.specs.Faults.{MarginOf};

    type Error = MarginFault;

    ghost try_from_gives = { MarginOf };

    fn try_from(columns: u32) -> Result<Margin, MarginFault> {
        match columns {
            16..=120 => Ok(Margin {
                columns: columns as u8,
            }),
            _ => Err(MarginFault { columns }),
        }
    }
}
