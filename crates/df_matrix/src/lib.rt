//! The orbit matrix of a problem: its rows, orbits, entries and columns, and the system that they make.
//! It stands on df_orbits for orbits by marks, on df_system for sparse columns, and on df_kramer_mesner for what an orbit system is.
//! The crates above see an `OrbitMatrix` as its problem: each call answers a word of df_kramer_mesner's specs/OrbitSystems.antt on that problem.
#![tactic(auto)]

mod cells;
mod columns;
#[cfg(test)]
mod comparisons;
mod designs;
mod matrix;
mod orbits;
mod rows;
#[cfg(test)]
mod tests;

pub use cells::OrbitCells;
pub use designs::matrix_tells_designs;
pub use matrix::{MOST_COLUMNS, MOST_ENTRIES, MatrixError, OrbitMatrix, build, matrix_is_bounded};
pub use orbits::ProblemOrbits;

/// Out of memory.
pub type OutOfMemory = std::alloc::AllocError;
