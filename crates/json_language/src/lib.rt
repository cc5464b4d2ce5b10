// JSON as RFC 8259 has it: which bytes are a document, and the rules by which it is read.
//
// `specs/` has how words are spelled, which words may follow one another, and the rules. The functions
// of `laws` hold the promise in their contracts: the rules are lawful, and they read this language and
// no other. It is a theory: only the names of the classes are code.
#![tactic(auto)]

pub mod class;
pub mod laws;
