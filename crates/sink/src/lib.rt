// Sinks: where a printer lays its text out, and that may be full at any byte.
//
// A sink means the text that it holds and a rule that admits a text or not. `sink` has the trait with its laws, `window` and `slip` have
// two sinks, and `write` writes runs of bytes into any sink.
#![tactic(auto)]

pub mod fault;
pub mod laws;
pub mod sink;
pub mod slip;
#[cfg(test)]
mod tests;
pub mod window;
pub mod write;
