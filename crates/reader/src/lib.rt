// One reader for every language: it takes a document byte by byte, keeps no more than the word under
// way and the open brackets, and gives the tokens of each word that ends.
//
// `reader` has the reader, `machine` the word under way and its place, `bytes` the bytes of that word, `over` what a byte or the end
// has ended, `piece` what stands around a word's Text, `tokens` the tokens of a word, and `ended`
// what is told of a word that ended. `specs/State` says what a reader holds, in the words of the
// machine that reads by the rules.
#![tactic(auto)]

mod bytes;
pub mod ended;
pub mod laws;
mod machine;
mod over;
mod piece;
pub mod reader;
mod tokens;
