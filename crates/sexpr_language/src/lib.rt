// The language of S-expressions, stated on its own, and the rules by which it is read byte by byte.
//
// Proved: the rules are lawful, and the words and documents by the rules are those of the language.
// It is a theory: only the classes of bytes are code.
#![tactic(auto)]

pub mod class;
pub mod laws;
