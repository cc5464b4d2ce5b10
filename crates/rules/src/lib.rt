// The rules by which a grammar is read byte by byte: how a word begins, goes on and ends, which word may
// stand where, and which tokens stand for it.
//
// `specs/` has what rules are, the machine that reads by them, the language that they describe without
// a machine, and what rules must show for the two to agree. A grammar is one set of rules. It is a
// theory: only the names of its parts and the steps in strings that grammars share are code.
#![tactic(auto)]

pub mod escape;
pub mod language;
pub mod place;
pub mod word;
