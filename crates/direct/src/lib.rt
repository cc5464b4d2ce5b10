// Direct jobs: a program hands in tokens one by one, each by its own call, and drains the job.
//
// A job is opened on a sink, a margin and a job number. Each call is taken or refused by a number; a
// refusal that breaks the job is repeated by every later call. An Opening gives a receipt, which an
// Ending or a drained job must take. The drain moves the open job into a drained one, which gives its
// outcome and hands the sink back. `specs/Course` says what every list of calls comes to, and
// `specs/Laws` when a job is whole.
#![tactic(auto)]

pub mod fault;
pub mod job;
pub mod outcome;
pub mod receipt;
