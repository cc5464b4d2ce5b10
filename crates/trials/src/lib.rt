// Trials of direct jobs at their edges, as tests only. What is expected comes from the definitions of the
// layout and of the course of a job.
#![tactic(auto)]

#[cfg(test)]
mod tests;
