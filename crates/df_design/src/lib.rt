//! The designs of a problem, one after another: a search through its orbit matrix, whose solutions are said as designs.
//! It stands on df_search, which steps through the matrix's system, on df_matrix, and on df_correspondence, by which the designs that a problem asks for are those of the solutions.
//! The crates above take designs by `Designs::next` or entries by `Designs::advance`, list a design by `Reps` and `Blocks`, and may rest on this: what remains is told whole as designs, as entries and as nodes.
#![tactic(auto)]

pub mod blocks;
pub mod designs;
pub mod reps;
#[cfg(test)]
mod tests;

pub use blocks::Blocks;
pub use designs::Designs;
pub use df_search::{Event, PathView, ResumeError, Turn, Why};
pub use df_walk::Rules;
pub use reps::Reps;

/// Out of memory.
pub type OutOfMemory = std::alloc::AllocError;
