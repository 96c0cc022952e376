//! The maps x -> mx + h of the elements and fixed points of a group, with m a product of stated multipliers and h in a subgroup.
//! It stands on df_group, for elements and subgroups, on df_subsets, for blocks, and on df_acting, for what is true of any list of maps.
//! The crates above see a `Maps` as its factors, its number of fixed points, the residues of its products and its shifts, and cite the words of specs/FullMaps.antt and the laws.
//! Laws for the rooms above: proofs/FixingCounts, proofs/SpreadLaws.
#![tactic(auto)]

mod laws;
mod maps;
mod products;
#[cfg(test)]
mod tests;

pub use laws::{maps_are_groups, maps_are_made, prescribed_are_enough, products_are_all};
pub use maps::Maps;
