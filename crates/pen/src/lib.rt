// The output side of a printer, without a sink: where writing stands, and how a Break is written.
//
// `pen` has the pen: its column, its open blocks, and the newlines and the widest line so far.
// `breaking` has the two ways to write a Break, and `indent` the limits of an indentation.
// `specs/At` says where a pen stands, in the words of the layout.
#![tactic(auto)]

pub mod breaking;
mod indent;
pub mod pen;

#[cfg(test)]
mod tests {
    use crate::breaking::Breaking;
    use crate::pen::Pen;
    use layout::margin::Margin;
    use layout::token::{Anchor, Break, Fold, Opening};
    use std::test::Fail;

    // A Break of so many blanks, with offset 0.
    fn gap(blanks: u8) -> Break {
        Break { blanks, offset: 0 }
    }

    // At margin 40, after so many columns: the indentation of a block with this anchor and offset,
    // held to 0 to 32; the column and the widest line stop at 65,535.
    #[test]
    fn numbers_have_limits(rt: HostRuntime) -> Result<(), Fail> {
        let margin = Margin::try_from(40)?;
        for (column, anchor, offset, indent) in [
            (10, Anchor::Column, 3, 13),
            (10, Anchor::Indent, 3, 3),
            (10, Anchor::Column, -11, 0),
            (40, Anchor::Column, -7, 32),
            (65535, Anchor::Column, -128, 32),
        ] {
            let mut pen = Pen::new(margin);
            pen.wrote(column);
            pen.wrote(column / 65535);
            let opening = Opening {
                offset,
                fold: Fold::Each,
                anchor,
            };
            pen.open_block(opening, false);
            assert_eq!(rt; pen.break_as(gap(2), false), Breaking::Line(indent));
            assert!(rt; pen.fits(30) == (column == 10) && pen.widest() == column);
        }
        Ok(())
    }

    // The 64th block opens, the 65th does not; an Ending past the last changes nothing.
    #[test]
    fn blocks_have_limits(rt: HostRuntime) -> Result<(), Fail> {
        let mut pen = Pen::new(Margin::try_from(120)?);
        let one_in = Opening {
            offset: 1,
            fold: Fold::All,
            anchor: Anchor::Indent,
        };
        for _ in 0..65 {
            pen.open_block(one_in, false);
        }
        assert_eq!(rt; pen.break_as(gap(0), true), Breaking::Line(64));
        for left in 1..66 {
            pen.end_block();
            assert_eq!(rt;
                pen.break_as(gap(0), true),
                Breaking::Line(64u8.saturating_sub(left))
            );
        }
        Ok(())
    }
}
