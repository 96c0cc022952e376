//! The texts that the program prints, each written to a sink.
//! A text has a module with its writer, and a module of specs/ of the same name with the text as a list of bytes.
//! Each writer's one clause is `Writes`: all of the text was written, or a proper prefix of it, and the sink failed.
//! `write_run` and `write_workload` say besides how the run ended. `list_run` hands its text back, a listing that is made whole.
//! Two laws say that the texts of runs are read back: that of a spent run as its dossier, and those of a chain of runs with their
//! logs as a chain that proves all designs, by the definitions of `df_dossier` and `df_check`.
//! Laws for the rooms above: proofs/SilentRuns.
#![tactic(auto)]

mod canonical;
mod check;
#[cfg(test)]
mod check_tests;
mod counts;
mod dossier;
mod gathered;
mod laws;
mod limits;
mod listing;
mod matrix;
mod orbits;
mod path;
mod refusal;
mod run;
#[cfg(test)]
mod run_fill_tests;
mod run_lines;
#[cfg(test)]
mod run_tests;
mod table;
mod usage;
mod verdict;
mod workload;

pub use canonical::write_canonical;
pub use check::{write_complete, write_log_refusal};
pub use dossier::write_dossier_refusal;
pub use laws::{own_logs_are_chains, spent_texts_are_read_back};
pub use limits::{Limit, write_limit};
pub use listing::{ListedRun, list_run};
pub use matrix::write_matrix;
pub use orbits::write_orbits;
pub use path::{PathRefusal, write_path_refusal};
pub use refusal::write_refusal;
pub use run::{RunEnd, Shown, write_run};
pub use table::write_table;
pub use usage::write_usage;
pub use verdict::write_verdict;
pub use workload::write_workload;

/// Out of memory.
pub type OutOfMemory = std::alloc::AllocError;
