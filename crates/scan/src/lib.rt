// The tokens that a printer holds back, in three queues: records, text bytes and places.
//
// A token comes in at the back by `push_text`, `push_break`, `push_opening` or `push_ending`, and the
// first one goes by `drop_first`. A Break settles the sizes of all tokens that it is the reach of, so
// the first token's record says at any time whether its size is known. Each call takes constant time,
// a Break's over all tokens together, and nothing is written here: the sink is the printer's.
#![tactic(auto)]

pub mod scan;
