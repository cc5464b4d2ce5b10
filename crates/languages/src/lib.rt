// JSON and S-expressions, each as it is stated on its own, are read: exactly their documents that keep
// the limits are accepted, with their words where they stand; each refusal comes exactly where it should;
// and both show the laws of a grammar. Sample records are read as a table says, shown by computing the
// definitions. It is a theory: no code runs.
#![tactic(auto)]

pub mod laws;
