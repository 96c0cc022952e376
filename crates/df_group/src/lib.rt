//! Products of cyclic groups: elements by their numbers, arithmetic place by place, units and subgroups.
//! It stands on df_lists, for the words on lists, on df_sets, for sets of numbers, and on arrayvec.
//! The crates above see a `Shape` as its list of factors, an `Elem` as its number and a `Subgroup` as the increasing list of its members.
//! Laws for the rooms above: proofs/ElementLaws, proofs/ExponentLaws, proofs/GroupLaws, proofs/MultipleLaws, proofs/SubgroupLaws, proofs/UnitLaws.
#![tactic(auto)]

mod copies;
mod laws;
mod places;
mod residues;
mod shape;
mod subgroup;
#[cfg(test)]
mod tests;

pub use copies::copied_items;
pub use laws::{
    elements_are_numbered, multiples_are_multiples, products_are_groups, subgroups_are_closed,
    units_are_undone,
};
pub use shape::{Elem, Shape, ShapeError};
pub use subgroup::Subgroup;
