//! The orbit system of a problem, by Kramer and Mesner: its rows, orbits, entries and columns, and what is true of them.
//! It stands on df_lang, for problems and targets, on df_orbits, for orbits, and on df_system, for cells; it has no code that runs: the contract of each public function is a law, and its body is empty but for the laws below that it follows from.
//! The crates above cite the words of specs/OrbitSystems.antt, which are stated by lists, counts and single maps alone.
//! Laws for the rooms above: proofs/EntryQuotients, proofs/KeptOrbits, proofs/OrbitBlocks, proofs/OrbitNumbers,
//! proofs/ProblemMaps, proofs/RowLists.
#![tactic(auto)]

ghost use Rattle.df_kramer_mesner.specs.Laws.{EntriesAreQuotients, OrbitSystemsAreSystems, CellsAreTold, RowsArePairsAndNeeded, OrbitsAreKept, NumbersAreFew, ColumnsAreSparse, EntriesAreCounts, OrbitsAreNumbered};

use df_maps::{maps_are_groups, maps_are_made};
use df_orbits::{places_are_found, representatives_tell_orbits};
use df_subsets::{blocks_are_ordered, blocks_are_sets, candidates_are_all, subsets_are_all};

/// The entry of a row of pairs and an orbit, times the number of pairs in the row's orbit, is the number of blocks in the orbit times the number of pairs of one of its blocks that lie in the row's orbit.
/// The entry is the same for each pair of the row's orbit.
pub fn entries_are_quotients()
    ensures { EntriesAreQuotients }
{
    maps_are_made();
    maps_are_groups();
}

/// Each column of an orbit system has a positive entry, and its cells are positive and in the order of their rows.
pub fn orbit_systems_are_systems()
    ensures { OrbitSystemsAreSystems }
{
    maps_are_made();
    maps_are_groups();
    blocks_are_sets();
    blocks_are_ordered();
    subsets_are_all();
    candidates_are_all();
}

/// Cells that stand in the order of their rows are the positive entries of a list whose numbers are the entries of the rows.
pub fn cells_are_told_by_entries()
    ensures { CellsAreTold }
{}

/// The entries of an orbit, and the targets: first one for each pair, then one for each needed orbit.
pub fn rows_are_pairs_and_needed()
    ensures { RowsArePairsAndNeeded }
{}

/// An orbit is kept exactly where no entry is above its row's target and none of its blocks is forbidden.
pub fn orbits_are_kept()
    ensures { OrbitsAreKept }
{}

/// How many pairs and blocks there are, what points they have, and that no entry and no orbit is greater than the number of all blocks.
pub fn numbers_are_few()
    ensures { NumbersAreFew }
{
    blocks_are_sets();
    subsets_are_all();
    candidates_are_all();
}

/// There are no more rows of needed orbits than required blocks, and a column has at most 121 cells.
pub fn columns_are_sparse()
    ensures { ColumnsAreSparse }
{
    maps_are_made();
    maps_are_groups();
    blocks_are_sets();
    blocks_are_ordered();
    subsets_are_all();
    candidates_are_all();
}

/// The entry of a row and a column of an orbit system is the number of blocks that the definition counts for them.
pub fn entries_are_counts()
    ensures { EntriesAreCounts }
{}

/// The number of a block's orbit is the place of its representative, which is the only one in one orbit with the block;
/// and a kept orbit has the number of its column.
pub fn orbits_are_numbered()
    ensures { OrbitsAreNumbered }
{
    maps_are_made();
    maps_are_groups();
    blocks_are_sets();
    representatives_tell_orbits();
    places_are_found();
}

#[cfg(test)]
mod tests;
