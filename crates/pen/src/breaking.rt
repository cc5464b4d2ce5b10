// How a Break is written: as so many blanks, or as a newline and so many blanks.
#[derive(Clone, Copy, PartialEq, Eq, Debug)]
pub enum Breaking {
    Blanks(u8),
    Line(u8),
}
