//! The orbits of pairs and of blocks under a group of maps x -> mx + h, numbered by their representatives, with their sizes.
//! It stands on df_maps and df_subsets, and finds an orbit by marks at the places of the images of its representative, one bit a block.
//! The crates above see an `Orbits` as the list of representatives and sizes, and cite the words of specs/Orbits.antt, which are stated by single maps alone.
//! Laws for the rooms above: proofs/ListedOrbits.
#![tactic(auto)]

#[cfg(test)]
mod comparisons;
mod images;
mod laws;
mod marks;
mod numbers;
mod orbits;
mod places;
#[cfg(test)]
mod tests;

pub use images::Images;
pub use laws::{places_are_found, representatives_tell_orbits};
pub use numbers::PairNumbers;
pub use orbits::{
    MOST_SUBSETS, MOST_SUMMED, OrbitError, Orbits, count_blocks, orbits_of_pairs, orbits_of_sizes,
    pair_orbits, sized_orbits, subset_orbits,
};

/// Out of memory.
pub type OutOfMemory = std::alloc::AllocError;
