//! Points and blocks, and all blocks of a size: a block is a set of points below 128, with the order of lists.
//! It stands on df_lists, for the words on lists and orders, on df_sets, for sets of numbers, and on arrayvec.
//! The crates above see a `Point` as its number, a `Block` as the increasing list of its points, and places as those in the list of all blocks of a size.
//! Laws for the rooms above: proofs/Binomials, proofs/BlockLaws, proofs/BlockOrders, proofs/Places, proofs/SizedLists, proofs/SubsetLists.
#![tactic(auto)]

mod block;
mod laws;
mod subsets;
#[cfg(test)]
mod tests;

pub use block::{Block, Point};
pub use laws::{
    blocks_are_extended, blocks_are_ordered, blocks_are_sets, candidates_are_all, ranks_are_places,
    subsets_are_all,
};
pub use subsets::{binomial, first, next, rank, unrank};
