// The layout of tokens to a margin, with everything known, and what may be written of it so far.
//
// `specs/` has the definitions: tokens, width, reach, size, the layout, what is passed and what is
// held back after each token. The functions below hold the laws of these definitions in their
// contracts, and `Margin` is the only way to a margin. It is a theory: hardly any code runs.
#![tactic(auto)]

pub mod fault;
pub mod laws;
pub mod margin;
pub mod token;
