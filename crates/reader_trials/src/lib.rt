// Trials of readers, as tests only: bytes that no line of text has, the tokens of a byte, the brackets open. What is
// expected comes from the definitions of the two grammars.
#![tactic(auto)]

#[cfg(test)]
mod tests;
