//! Mixed families: families that are developed by the elements of a subgroup alone, with blocks of several kinds over its cosets.
//! It stands on df_family for the development by a subgroup and for how often a family has two points, on df_acting for orbits and
//! representatives, on df_lang for problems, targets and balance, and on df_group and df_subsets for the arithmetic of points.
//! The crates above use `DevelopUnder`, `MixedTable` and `verify_under`, or `pair_table` and then `table_verdict`, and cite the
//! definitions of its specs/; that a verdict tells balance is a clause of both.
#![tactic(auto)]

mod blocks;
mod develop;
mod laws;
mod pairs;
#[cfg(test)]
mod plain_tests;
mod table;
mod verdict;
#[cfg(test)]
mod worked_tests;

pub use develop::DevelopUnder;
pub use laws::{
    orbits_have_one_row, pair_table_tells_balance, translations_keep_pairs, whole_group_is_verified,
};
pub use table::{MixedTable, pair_table};
pub use verdict::{MixedVerdict, table_verdict, verify_under};

/// Out of memory.
pub type OutOfMemory = std::alloc::AllocError;
