// The words of a text held in memory, one after the other: each as a part of that text, with its kind
// and its place, and then none; or, behind the words that earlier bytes ended, a refusal with its place,
// again and again. The text may have any length.
#![tactic(auto)]

pub mod fault;
pub mod word;
pub mod words;
