//! Systems of rows over columns as the solver holds them, and partial assignments whose needs and caps are kept up to date along one column at each decision.
//! It stands on `df_walk`, whose words its contracts use and whose types it passes on, on the counter of `df_steps`, and on the laws of lists in `df_lists`.
//! The crates above read entries by `System::entry` and make decisions by a `Partial`, both of which count their steps, and ask for needs, caps, and the least row that is over or under. `BarredColumns` tell a search which columns a row without need rules out, and `PathRows` hold the rows of a path that counts its yes columns alone, and how far it may go on with no's.
//! Laws for the rooms above: proofs/CellCounts, proofs/PositiveCells.
#![tactic(auto)]

pub mod barred;
pub mod columns;
mod counted_rows;
pub mod deadlines;
mod divisors;
pub mod limits;
pub mod partial;
pub mod path;
pub mod path_rows;
mod reaches;
pub mod system;
mod tallies;

pub use barred::BarredColumns;
pub use columns::Columns;
pub use deadlines::{DEADLINES_A_CELL, MOST_DEADLINES};
pub use df_walk::{Cell, Rules};
pub use limits::{MOST_COLUMNS, MOST_ENTRIES, ROW_LIMIT};
pub use partial::Partial;
pub use path::Path;
pub use path_rows::PathRows;
pub use system::{System, SystemError};

/// Out of memory.
pub type OutOfMemory = std::alloc::AllocError;

#[cfg(test)]
mod tests;
