// What a streaming printer keeps of the tokens that it holds back, and why that is enough.
//
// A token waits as a record; a Text's bytes wait in a queue of their own. An Opening or a Break whose
// reach has not come has a place in a third queue. `specs/` says which records and places stand for
// which tokens, and `proofs/` how they change as tokens come and go. It is a theory: no code runs.
#![tactic(auto)]

pub mod record;
