// The streaming printer over any sink: tokens come in one by one, and each is written as soon as the
// layout lets it pass. What is written at any time is what the layout, passing all it may, has written
// of the tokens so far; at most 384 tokens are held back; a sink that refuses a byte ends the print
// with that fault and the number of the token not wholly written. Nothing calls itself, and a token
// costs constant time over all tokens together.
#![tactic(auto)]

pub mod fault;
pub mod printer;
mod write;
