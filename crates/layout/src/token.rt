// The small enums of a token and of an open block, shared by the definitions and the program.

// How a block that does not fit on its line breaks: at all of its Breaks, or at each where the
// next part does not fit.
#[derive(Clone, Copy, PartialEq, Eq, Debug)]
pub enum Fold {
    All,
    Each,
}

// From where a block is indented: the column at which it opens, or the enclosing indentation.
#[derive(Clone, Copy, PartialEq, Eq, Debug)]
pub enum Anchor {
    Column,
    Indent,
}

// An open block: how it folds, none where it lies on one line; and its indentation.
#[derive(Clone, Copy, Default, PartialEq, Eq, Debug)]
pub struct Block {
    pub fold: Option<Fold>,
    pub indent: u8,
}

impl Block {
    // The block around all others.
    pub const OUTERMOST: Block = Block {
        fold: Some(Fold::All),
        indent: 0,
    };
}

// A Break: so many blanks, or a newline and an indentation moved by the offset.
#[derive(Clone, Copy, PartialEq, Eq, Debug)]
pub struct Break {
    pub blanks: u8,
    pub offset: i8,
}

// The Opening of a block: how its indentation is moved, how it breaks, and from where it is indented.
#[derive(Clone, Copy, PartialEq, Eq, Debug)]
pub struct Opening {
    pub offset: i8,
    pub fold: Fold,
    pub anchor: Anchor,
}

// A token, whose Text is a T: its bytes, where it is handed in.
#[derive(Clone, Copy, PartialEq, Eq, Debug)]
pub enum Token<T> {
    Text(T),
    Break(Break),
    Opening(Opening),
    Ending,
}
