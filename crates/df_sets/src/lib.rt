//! Sets of numbers below 128, kept in 128 bits: the one type below the blocks of points and the subgroups of a group.
//! It stands on df_lists for the words on sets that are written as increasing lists, and on std.
//! The crates above see a `NumberSet` as the increasing list of its members.
//! Laws for the rooms above: proofs/MemberBits.
#![tactic(auto)]

mod number_set;
#[cfg(test)]
mod tests;

pub use number_set::NumberSet;
