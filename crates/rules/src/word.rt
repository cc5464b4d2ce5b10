// How a word begins, goes on and ends.
use std::fmt;

// The kinds of words. A word's kind shows in its first byte.
#[derive(Clone, Copy, PartialEq, Eq, Debug)]
pub enum Kind {
    Opening,
    Closing,
    Comma,
    Colon,
    Text,
    Number,
    Literal,
    Atom,
}

impl fmt::Display for Kind {
    fn fmt<W: fmt::Write>(&self, f: &mut fmt::Formatter<W>) -> fmt::Result {
        f.write_str(match self {
            Kind::Opening => "opening",
            Kind::Closing => "closing",
            Kind::Comma => "comma",
            Kind::Colon => "colon",
            Kind::Text => "string",
            Kind::Number => "number",
            Kind::Literal => "literal",
            Kind::Atom => "atom",
        })
    }
}

// How far a number has come: the part to which its last byte belongs.
#[derive(Clone, Copy, PartialEq, Eq, Debug)]
pub enum Part {
    // the minus sign
    Minus,
    // a zero that is the whole integer
    Zero,
    // a digit of the integer
    Integer,
    // the decimal point
    Point,
    // a digit behind the point
    Fraction,
    // the letter e
    Letter,
    // the sign of the exponent
    Sign,
    // a digit of the exponent
    Exponent,
}

// A word under way.
#[derive(Clone, Copy, PartialEq, Eq, Debug)]
pub enum Inside {
    // a string, whose last bytes, as many as this, are an escape under way
    Quoted(u8),
    Number(Part),
    Literal,
    Atom,
}

// What a byte is between words.
#[derive(Clone, Copy, PartialEq, Eq, Debug)]
pub enum Begin {
    // no part of a word
    Blank,
    // a word of its own
    Sole,
    // the first byte of a longer word
    Starts(Inside),
    // nothing that the grammar has there
    Never,
}

// What a byte is behind the bytes of a word under way.
#[derive(Clone, Copy, PartialEq, Eq, Debug)]
pub enum Turn {
    // one more byte of the word
    Stays(Inside),
    // the word's last byte
    Closes,
    // no part of the word
    Never,
}
