//! The words of the command line, and the command that they ask for.
//! It stands on `df_io` alone, for numbers.
//! The crates above may use each name below.
#![tactic(auto)]

mod command;
mod laws;
mod table;
mod words;

pub use command::{Command, Options};
pub use laws::{commands_are_their_lines, workloads_are_numbered};
pub use table::{DEFAULT_BUDGET, LEAST_BUDGET, LEAST_WORKLOAD, MOST_BUDGET, MOST_WORKLOAD};
pub use words::{UsageFault, read_words};

#[cfg(test)]
mod tests;
