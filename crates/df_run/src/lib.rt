//! The top call: words and input to a status and a text.
//! It stands on df_words for commands, on df_tell for texts, and on the crates of the language, of families, of orbits, of designs, of dossiers and of
//! their checker for what an answer is.
//! The program calls `run`. Its clause `ends` says for each status what was read and what was written, its clause `headline`
//! what that says of designs, and its clause `unread` that a workload reads nothing.
//! A law of it, `chains_are_answered`, is about searches that go on with one another's texts, and `own_logs_are_complete` says that `check`
//! takes what they wrote.
#![tactic(auto)]

mod answers;
mod check;
mod laws;
mod limits;
mod listing;
mod matrix;
mod orbits;
mod resume;
mod runs;
mod search;
mod solve;
mod statuses;
mod tasks;
mod workload;

pub use df_words::{Command, Options, UsageFault, read_words};
pub use laws::{chains_are_answered, own_logs_are_complete};
pub use runs::run;
pub use statuses::Status;
pub use tasks::SOURCE_BYTES;

#[cfg(test)]
mod chain_tests;
#[cfg(test)]
mod check_chain_tests;
#[cfg(test)]
mod check_tests;
#[cfg(test)]
mod design_tests;
#[cfg(test)]
mod hostile_logs_tests;
#[cfg(test)]
mod hostile_prefix_tests;
#[cfg(test)]
mod hostile_reads_tests;
#[cfg(test)]
mod hostile_runs;
#[cfg(test)]
mod hostile_sinks_tests;
#[cfg(test)]
mod listing_tests;
#[cfg(test)]
mod matrix_tests;
#[cfg(test)]
mod orbit_tests;
#[cfg(test)]
mod plain_designs;
#[cfg(test)]
mod refusal_tests;
#[cfg(test)]
mod resume_tests;
#[cfg(test)]
mod solve_tests;
#[cfg(test)]
mod tests;
#[cfg(test)]
mod workload_tests;
