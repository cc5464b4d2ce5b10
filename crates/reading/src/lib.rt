// The machine reads the language of its rules. For every lawful set of rules: it accepts exactly the
// documents of the language that keep the limits, and ends their words where they stand; it refuses a
// byte by 3 exactly where no document goes on so, else by 4 exactly at a word's 256th byte and by 5
// exactly at a 65th open bracket, and the end by 6 exactly where the document is unfinished; and it
// shows the laws of a grammar. It is a theory: no code runs.
#![tactic(auto)]

pub mod laws;
