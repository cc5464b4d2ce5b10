// The indentation of a line: a base moved by an offset, from 0 to the margin less 8.
ghost use Rattle.std.specs.Prelude.{◌≡◌};
ghost use Rattle.layout.specs.Margins.{indented};

use layout::margin::Margin;

pub(crate) fn indentation(base: u16, offset: i8, margin: Margin) -> u8
    ensures { result ≡ indented base offset margin.columns }
{
    let top = i32::from(margin.columns() - 8);
    (i32::from(base) + i32::from(offset)).clamp(0, top) as u8
}
