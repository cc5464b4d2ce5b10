// Where a word may stand, and what it does there.

// The brackets; a list's stands where none is kept yet.
#[derive(Clone, Copy, Default, PartialEq, Eq, Debug)]
pub enum Bracket {
    // [ ]
    Array,
    // { }
    Object,
    // ( )
    #[default]
    List,
}

// What may come next inside the innermost open bracket, or in the document where none is open.
#[derive(Clone, Copy, PartialEq, Eq, Debug)]
pub enum Expects {
    // nothing stands there yet
    First,
    // a comma stands before
    Next,
    // a name stands before, and a colon must come
    Colon,
    // a value must come
    Value,
    // a value or an expression stands before
    After,
}

// Where a word would stand: what may come there, and the innermost open bracket.
#[derive(Clone, Copy, PartialEq, Eq, Debug)]
pub struct Spot {
    pub expects: Expects,
    pub innermost: Option<Bracket>,
}

// What a word does to the place.
#[derive(Clone, Copy, PartialEq, Eq, Debug)]
pub enum Move {
    // it stays among the same brackets
    Within(Expects),
    // it opens a bracket, in which nothing stands yet
    Opens(Bracket),
    // it closes the innermost bracket
    Closes,
}
