//! Difference families: their developments, their difference tables, and the verdict on them.
//! It stands on df_lang for problems, targets and balance, on df_group and df_subsets for the arithmetic of points, and on df_sets
//! for the sets of shifts that fix a block.
//! The crates above use `Develop`, `Table` and `verify`, and cite the definitions of its specs/; that a verdict tells balance is a clause of `verify`.
//! Laws for the rooms above: proofs/BalanceLaws, proofs/CoverLaws, proofs/ShiftLaws, proofs/TranslateLaws, proofs/VerdictLaws.
#![tactic(auto)]

mod develop;
mod laws;
mod problem_pieces;
mod table;
mod tally;
#[cfg(test)]
mod tests;
mod translate;
mod verdict;

pub use develop::Develop;
pub use laws::{
    covers_are_found, division_leaves_no_rest, short_blocks_keep_first_occurrences,
    table_tells_balance, translates_divide_the_order, translates_hold_preimages,
    verdict_tells_balance,
};
pub use table::{Row, Table, difference_table};
pub use translate::{stabilizer, stabilizer_under};
pub use verdict::{Verdict, verify};

/// Out of memory.
pub type OutOfMemory = std::alloc::AllocError;
