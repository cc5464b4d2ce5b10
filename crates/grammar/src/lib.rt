// What a grammar is to a job: a reader takes the bytes of a document one by one, gives the tokens of the
// words that each byte ends, and refuses by number what no document of the grammar goes on with.
//
// `specs/` says what a grammar and a reader mean and which laws every grammar shows; a job over any
// grammar rests on these laws and on nothing else.
#![tactic(auto)]

pub mod grammar;
pub mod refusal;
