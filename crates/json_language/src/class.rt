// What a byte is in JSON.
#[derive(Clone, Copy, PartialEq, Eq, Debug)]
pub enum Class {
    // below 0x20, and no blank
    Control,
    // a tab, a newline or a carriage return
    Blank,
    // 0x20, blank between words and part of a string
    Space,
    // "
    Quote,
    // \
    Backslash,
    // [
    OpenArray,
    // ]
    CloseArray,
    // {
    OpenObject,
    // }
    CloseObject,
    // ,
    Comma,
    // :
    Colon,
    // -
    Minus,
    // +
    Plus,
    // .
    Point,
    // 0
    Zero,
    // 1 to 9
    Digit,
    // e or E
    Exponent,
    // t, f or n, with which a literal begins
    Letter,
    // any other
    Other,
}
