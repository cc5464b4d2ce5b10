// The classes of bytes: bytes of one class are treated alike wherever they stand.

#[derive(Clone, Copy, PartialEq, Eq, Debug)]
pub enum Class {
    // under 0x20, and not blank
    Control,
    // tab, newline, carriage return
    Blank,
    // 0x20, which is blank between words and plain in a string
    Space,
    // "
    Quote,
    // (
    Open,
    // )
    Close,
    // \
    Backslash,
    // any other byte of an atom
    Atom,
    // ; and 0x7F, which stand only in strings, and every number over 0xFF
    Barred,
}
