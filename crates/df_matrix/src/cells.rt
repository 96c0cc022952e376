// The entries of an orbit in the rows of pairs. Each pair of a row lies in the same number of blocks of the orbit, so the entry
// times the pairs of the row is the blocks of the orbit times the pairs of one block that lie in the row. These pairs are found
// from the representative alone: the rows of its at most 120 pairs are looked up and sorted, and each row is tallied. So an
// orbit takes work by its pairs, and never by all rows or all of its blocks.
ghost use Rattle.std.specs.Prelude.{◌≡◌, ◌==◌, ◌+◌, ◌<◌, ◌≤◌, ℕ, List, true, false, length, map, All, Some, nat_le, slice_get, slice_index};
ghost use Rattle.std.specs.List.{list_all};
ghost use Rattle.std.specs.List.Sorted.{IsNonDecreasing};
ghost use Rattle.arrayvec.specs.ArrayVec.{array_vec_len};
ghost use Rattle.df_lists.specs.Membership.{count};
ghost use Rattle.df_walk.specs.Systems.{AreCells, entry_of};
ghost use Rattle.df_kramer_mesner.specs.OrbitSystems.{pairs_of, orbits_of, orbit_at};
ghost use Rattle.df_matrix.specs.MatrixParts.{quotient_cell, pair_cells as pair_cells_of};

use crate::orbits::ProblemOrbits;
use crate::rows::sorted_rows;
use arrayvec::ArrayVec;
use df_kramer_mesner::{cells_are_told_by_entries, entries_are_quotients};
use df_orbits::MOST_SUMMED;
use df_system::Cell;

/// Positive entries of an orbit, by their rows: at most 120 in rows of pairs, one for each two points of a block, and one
/// in the row of the orbit itself.
pub type OrbitCells = ArrayVec<Cell, 121>;

// Whether the row at this place is listed at the next one too.
fn goes_on(rows: &[u32], place: usize) -> bool
    requires { place < length rows.now }
    ensures more { result ≡ true → (place + 1 < length rows.now) × (slice_index rows.now (place + 1) ≡ slice_index rows.now place) }
    ensures last { result ≡ false → place + 1 < length rows.now → slice_index rows.now (place + 1) ≡ slice_index rows.now place → ⊥ }
{
    if place + 1 == rows.len() {
        return false;
    }
    rows[place + 1] == rows[place]
}

// Each different row with how often it is listed.
fn tally(rows: &[u32]) -> OrbitCells
    requires sorted { IsNonDecreasing rows.now }
    requires few { length rows.now ≤ 120 }
    ensures cells { (n : ℕ) → All (λ row. row < n) rows.now → AreCells n result.items }
    ensures tally { (row : ℕ) → entry_of result.items row ≡ count (λ r. r == row) rows.now }
    ensures small { All (λ cell. cell.value ≤ 120) result.items }
    ensures few { array_vec_len result ≤ 120 }
{
    let mut cells = ArrayVec::new();
    let mut count = 0;
    for i in 0..rows.len() {
        count += 1;
        if goes_on(rows, i) {
            continue;
        }
        cells.push(Cell {
            row: rows[i],
            value: count,
        });
        count = 0;
    }
    cells
}

// The entries of an orbit of so many blocks, from how many pairs of one of its blocks lie in each row:
// each of a row's pairs lies in the same number of blocks.
fn quotients(orbits: &ProblemOrbits, size: u32, tally: &[Cell]) -> OrbitCells
    requires orbits { 0 < length (orbits_of orbits.now) }
    requires size { size ≤ MOST_SUMMED }
    requires few { length tally.now ≤ 120 }
    requires rows { All (λ cell. cell.row < length (pairs_of orbits.now)) tally.now }
    requires small { All (λ cell. cell.value ≤ 120) tally.now }
    ensures cells { result.items ≡ map (quotient_cell orbits.now size) tally.now }
    ensures few { array_vec_len result ≤ 120 }
{
    let mut cells = ArrayVec::new();
    for cell in tally {
        cells.push(Cell {
            row: cell.row,
            value: size * cell.value / orbits.row_size(cell.row),
        });
    }
    cells
}

/// The positive entries of an orbit in the rows of pairs.
pub fn pair_cells(orbits: &ProblemOrbits, orbit: usize) -> OrbitCells
    requires { orbit < length (orbits_of orbits.now) }
    ensures entries { result.items ≡ pair_cells_of orbits.now (orbit_at orbits.now orbit) }
    ensures cells { AreCells (length (pairs_of orbits.now)) result.items }
    ensures few { array_vec_len result ≤ 120 }
{
    entries_are_quotients();
    cells_are_told_by_entries();
    let rows = sorted_rows(orbits, &orbits.orbit(orbit));
    quotients(
        orbits,
        orbits.orbit_size(orbit),
        tally(rows.as_slice()).as_slice(),
    )
}

/// The value of a row's cell, 0 where it has none.
pub fn value_at(cells: &[Cell], row: u32) -> u32
    requires { (rows : ℕ) × AreCells rows cells.now }
    ensures { result ≡ entry_of cells.now row }
{
    for cell in cells {
        if cell.row == row {
            return cell.value;
        }
    }
    0
}

/// Whether no entry is above its row's target.
pub fn fit(cells: &[Cell], targets: &[u32]) -> bool
    requires { All (λ cell. cell.row < length targets.now) cells.now }
    ensures { result ≡ list_all (λ cell. nat_le cell.value (slice_index targets.now cell.row)) cells.now }
{
    for cell in cells {
        if cell.value > targets[cell.row as usize] {
            return false;
        }
    }
    true
}
