// The orbit matrix of a problem.
ghost use Rattle.std.specs.Prelude.{◌≡◌, ℕ, ◌⊎◌, ◌+◌, ◌<◌, ◌≤◌, ◌-◌, ◌∷◌, [], length, All, Some, None, IfOk, IfErr, IsOk};
ghost use Rattle.df_lang.specs.declared.problem.TheConstants.{MOST_TARGET};
ghost use Rattle.df_lang.specs.Problems.{point_count, IsBlock, IsStated};
ghost use Rattle.df_walk.specs.Systems.{entry, target};
ghost use Rattle.df_kramer_mesner.specs.OrbitSystems.{orbit_system, pairs_of, needed_of, orbits_of, columns_of, targets_of, targets_of as all_targets, maps_of_problem, pair_at, needed_at, column_at, orbit_at, entry_at, cells_of, column_number, representative};
ghost use Rattle.df_matrix.specs.Limits.{limit_passed, or_else, column_limit, entry_limit, column_limit_of, entry_limit_of, passed_by};
ghost use Rattle.df_matrix.specs.MatrixParts.{AreColumns, needed_places, kept_places};
ghost use Rattle.df_matrix.specs.declared.matrix.MatrixError.TheVariants.{OutOfMemory as OutOfMemoryError};

use crate::cells::{OrbitCells, value_at};
use crate::columns::{
    kept_of, marked, numbers_of, orbit_cells, place_in, system_of, targets_of as targets,
};
use crate::orbits::ProblemOrbits;
use df_kramer_mesner::{
    columns_are_sparse, entries_are_counts, numbers_are_few, orbits_are_numbered,
    rows_are_pairs_and_needed,
};
use df_lang::Problem;
use df_maps::Maps;
use df_orbits::{MOST_SUMMED, OrbitError};
use df_subsets::{Block, Point};
use df_system::System;
use std::alloc::{AllocError, Global};
use std::marker::Model;

/// The most columns of an orbit matrix: those of a system.
pub const MOST_COLUMNS: u64 = df_system::MOST_COLUMNS as u64;

/// The most rows times columns of an orbit matrix of version 1: the entries of a system.
pub const MOST_ENTRIES: u64 = df_system::MOST_ENTRIES as u64;

/// Why there is no orbit matrix. The limits are judged in the order of the first three; `TooManySummed` stands in the place of `TooManySubsets` for a source of version 2.
#[derive(Clone, Copy, Debug, PartialEq, Eq)]
pub enum MatrixError {
    /// Version 1: there are more than `MOST_SUBSETS` blocks of the size.
    TooManySubsets { points: u8, size: u8 },
    /// More than `MOST_COLUMNS` orbits are kept.
    TooManyColumns { found: u64 },
    /// Version 1: there are more than `MOST_ENTRIES` rows times columns.
    TooLarge { rows: u64, columns: u64 },
    /// Out of memory.
    OutOfMemory,
    /// Version 2: there are more than `MOST_SUMMED` blocks of the sizes together.
    TooManySummed { points: u8, sum: u128 },
}

/// The orbit matrix of a problem (Kramer and Mesner 1976, for t = 2): rows of pairs and of required orbits, and columns of kept orbits.
/// Contracts see it as its problem, of which it keeps a copy.
#[derive(Drop)]
pub struct OrbitMatrix {
    orbits: ProblemOrbits,
    // the numbers of the orbits that have a required block, increasing
    needed_orbits: Vec<u32>,
    // the numbers of the orbits that are kept, increasing
    kept_orbits: Vec<u32>,
    system: System,
}

impl Model for OrbitMatrix {
    ghost use Rattle.df_lang.specs.Problems.{Stated};
    ghost use Rattle.df_matrix.specs.MatrixParts.{AreColumns};

    ghost Value = { Stated };

    ghost view = { λ m. m.orbits };

    ghost invariant = { λ m. AreColumns m.orbits m.needed_orbits.items m.kept_orbits.items m.system };
}

impl OrbitMatrix {
    /// The system: a target for each row, and the positive entries of each column.
    pub fn system(&self) -> &System
        ensures { result.now ≡ orbit_system self.now }
    {
        &self.system
    }

    /// The problem.
    pub fn problem(&self) -> &Problem
        ensures { result.now ≡ self.now }
    {
        self.orbits.problem()
    }

    /// The maps x -> mx + h of the problem.
    pub fn maps(&self) -> &Maps
        ensures { result.now ≡ maps_of_problem self.now }
    {
        self.orbits.maps()
    }

    /// The number of rows of pairs. The rows after them are those of required orbits.
    pub fn pair_rows(&self) -> u32
        ensures { result ≡ length (pairs_of self.now) }
    {
        self.orbits.pair_count()
    }

    /// The representative of a row of pairs, whose number is below `pair_rows`. The first point is the lower one.
    pub fn row_pair(&self, row: u32) -> (Point, Point)
        requires { row < length (pairs_of self.now) }
        ensures pair { result.0 ∷ result.1 ∷ [] ≡ pair_at self.now row }
        ensures order { result.0 < result.1 }
        ensures within { result.1 < point_count self.now }
    {
        self.orbits.pair(row)
    }

    /// The representative of the required orbit of a row, whose number is from `pair_rows` on and below the number of rows.
    pub fn row_block(&self, row: u32) -> Block
        requires after { length (pairs_of self.now) ≤ row }
        requires within { row < length (pairs_of self.now) + length (needed_of self.now) }
        ensures needed { result ≡ needed_at self.now (row - length (pairs_of self.now)) }
        ensures size { length result ≤ 16 }
    {
        let place = row - self.orbits.pair_count();
        self.orbits
            .orbit(self.needed_orbits[place as usize] as usize)
    }

    /// The representative of a column's orbit. The column is below the number of columns.
    pub fn column_block(&self, column: u32) -> Block
        requires { column < length (columns_of self.now) }
        ensures column { result ≡ column_at self.now column }
        ensures size { length result ≤ 16 }
    {
        self.orbits
            .orbit(self.kept_orbits[column as usize] as usize)
    }

    /// The number of orbits, kept and not kept.
    pub fn orbit_count(&self) -> usize
        ensures { result ≡ length (orbits_of self.now) }
    {
        self.orbits.orbit_count()
    }

    /// The representative of an orbit, whose number is below `orbit_count`.
    pub fn orbit_block(&self, orbit: usize) -> Block
        requires { orbit < length (orbits_of self.now) }
        ensures orbit { result ≡ orbit_at self.now orbit }
        ensures size { length result ≤ 16 }
    {
        self.orbits.orbit(orbit)
    }

    /// The entry of a row, below the number of rows, and an orbit, below `orbit_count`.
    pub fn entry_of_orbit(&self, row: u32, orbit: usize) -> u32
        requires row { row < length (targets_of self.now) }
        requires orbit { orbit < length (orbits_of self.now) }
        ensures { result ≡ entry_at self.now row (orbit_at self.now orbit) }
    {
        rows_are_pairs_and_needed();
        value_at(self.orbit_cells(orbit).as_slice(), row)
    }

    /// All positive entries of an orbit, whose number is below `orbit_count`, in the order of their rows, those of required orbits among them.
    pub fn orbit_cells(&self, orbit: usize) -> OrbitCells
        requires { orbit < length (orbits_of self.now) }
        ensures { result.items ≡ cells_of self.now (orbit_at self.now orbit) }
    {
        orbit_cells(&self.orbits, &self.needed_orbits, orbit)
    }

    /// The column of an orbit, whose number is below `orbit_count`. `None` exactly where the orbit isn't kept.
    pub fn kept(&self, orbit: usize) -> Option<u32>
        requires { orbit < length (orbits_of self.now) }
        ensures { result ≡ column_number self.now (orbit_at self.now orbit) }
    {
        orbits_are_numbered();
        self.orbits.orbit_count();
        place_in(&self.kept_orbits, orbit as u32)
    }

    /// The column of the orbit of a block, which has one of the stated sizes and lies below the number of points. `None` exactly where that orbit isn't kept.
    pub fn column_of(&self, block: &Block) -> Option<u32>
        requires { IsBlock (point_count self.now) self.now.sizes block.now }
        ensures { result ≡ column_number self.now (representative self.now block.now) }
    {
        orbits_are_numbered();
        self.orbits.orbit_count();
        self.kept(self.orbits.orbit_of(block))
    }
}

/// How large the numbers of a matrix can be: a law, without effect. There are at most `MOST_COLUMNS` columns, no entry is
/// above `df_orbits::MOST_SUMMED`, and no target above `df_lang::MOST_TARGET`.
pub fn matrix_is_bounded(matrix: &OrbitMatrix)
    ensures columns { length (columns_of matrix.now) ≤ MOST_COLUMNS }
    ensures entries { (row column : ℕ) → row < length (targets_of matrix.now) → column < length (columns_of matrix.now) → entry (orbit_system matrix.now) row column ≤ MOST_SUMMED }
    ensures targets { (row : ℕ) → row < length (targets_of matrix.now) → target (orbit_system matrix.now) row ≤ MOST_TARGET }
{
    let _columns = matrix.kept_orbits.len();
    matrix.orbits.orbit_count();
    rows_are_pairs_and_needed();
    numbers_are_few();
    entries_are_counts();
}

/// The orbit matrix of a problem. The errors come in the order of `MatrixError`'s comment, each exactly where its number is above the limit; out of memory may come before a limit on columns or entries is judged.
pub fn build(alloc: Global, problem: &Problem) -> Result<OrbitMatrix, MatrixError>
    ensures value { IfOk result (λ matrix. matrix ≡ problem.now) }
    ensures within { IsOk result → limit_passed problem.now ≡ None }
    ensures refused { IfErr result (λ e. (limit_passed problem.now ≡ Some e) ⊎ (e ≡ OutOfMemoryError)) }
{
    let orbits = match ProblemOrbits::new(alloc, problem) {
        Ok(orbits) => orbits,
        Err(error) => return Err(passed(error)),
    };
    match parts_of(alloc, &orbits) {
        Ok(parts) => Ok(OrbitMatrix {
            orbits,
            needed_orbits: parts.needed,
            kept_orbits: parts.kept,
            system: parts.system,
        }),
        Err(error) => Err(error),
    }
}

// What a limit of the orbits is for the matrix.
fn passed(error: OrbitError) -> MatrixError
    ensures { result ≡ passed_by error }
{
    match error {
        OrbitError::TooManySubsets { points, size } => MatrixError::TooManySubsets { points, size },
        OrbitError::TooManySummed { points, sum } => MatrixError::TooManySummed { points, sum },
        OrbitError::OutOfMemory => MatrixError::OutOfMemory,
    }
}

// What a matrix keeps beside its orbits.
#[derive(Drop)]
struct Parts {
    needed: Vec<u32>,
    kept: Vec<u32>,
    system: System,
}

// The numbers of the orbits that have a required block.
fn needed_numbers(alloc: Global, orbits: &ProblemOrbits) -> Result<Vec<u32>, AllocError>
    ensures { IfOk result (λ needed. needed.items ≡ needed_places orbits.now) }
{
    orbits.orbit_count();
    let marks = marked(alloc, orbits, required_of(orbits.problem()))?;
    numbers_of(alloc, &marks)
}

// The numbers of the orbits that are kept.
fn kept_numbers(
    alloc: Global,
    orbits: &ProblemOrbits,
    targets: &[u32],
) -> Result<Vec<u32>, AllocError>
    requires { targets.now ≡ all_targets orbits.now }
    ensures { IfOk result (λ kept. kept.items ≡ kept_places orbits.now) }
{
    let forbidden = marked(alloc, orbits, forbidden_of(orbits.problem()))?;
    kept_of(alloc, orbits, targets, &forbidden)
}

// The required blocks.
fn required_of(problem: &Problem) -> &[Block]
    ensures blocks { result.now ≡ problem.now.required }
    ensures sized { All (IsBlock (point_count problem.now) problem.now.sizes) result.now }
{
    &problem.required
}

// The forbidden blocks.
fn forbidden_of(problem: &Problem) -> &[Block]
    ensures blocks { result.now ≡ problem.now.forbidden }
    ensures sized { All (IsBlock (point_count problem.now) problem.now.sizes) result.now }
{
    &problem.forbidden
}

// The version.
fn version_of(problem: &Problem) -> u8
    ensures version { result ≡ problem.now.version }
    ensures stated { IsStated problem.now }
{
    problem.version
}

// The parts of a matrix, if its columns and entries aren't too many.
fn parts_of(alloc: Global, orbits: &ProblemOrbits) -> Result<Parts, MatrixError>
    ensures value { IfOk result (λ parts. AreColumns orbits.now parts.needed.items parts.kept.items parts.system) }
    ensures within { IsOk result → or_else (column_limit orbits.now) (entry_limit orbits.now) ≡ None }
    ensures refused { IfErr result (λ e. (or_else (column_limit orbits.now) (entry_limit orbits.now) ≡ Some e) ⊎ (e ≡ OutOfMemoryError)) }
{
    columns_are_sparse();
    orbits.orbit_count();
    let version = version_of(orbits.problem());
    let Ok(needed) = needed_numbers(alloc, orbits) else {
        return Err(MatrixError::OutOfMemory);
    };
    let Ok(targets) = targets(alloc, orbits, needed.len()) else {
        return Err(MatrixError::OutOfMemory);
    };
    let Ok(kept) = kept_numbers(alloc, orbits, &targets) else {
        return Err(MatrixError::OutOfMemory);
    };
    match judge(version, targets.len(), kept.len()) {
        Ok(()) => {}
        Err(error) => return Err(error),
    }
    match system_of(alloc, orbits, targets, &needed, &kept) {
        Ok(system) => Ok(Parts {
            needed,
            kept,
            system,
        }),
        Err(_) => Err(MatrixError::OutOfMemory),
    }
}

// The limits on columns and on entries.
fn judge(version: u8, rows: usize, columns: usize) -> Result<(), MatrixError>
    requires rows { rows ≤ 12224 }
    requires columns { columns ≤ MOST_SUMMED }
    ensures within { IsOk result → or_else (column_limit_of columns) (entry_limit_of version rows columns) ≡ None }
    ensures few { IsOk result → columns ≤ MOST_COLUMNS }
    ensures refused { IfErr result (λ e. or_else (column_limit_of columns) (entry_limit_of version rows columns) ≡ Some e) }
{
    let rows = rows as u64;
    let columns = columns as u64;
    if columns > MOST_COLUMNS {
        return Err(MatrixError::TooManyColumns { found: columns });
    }
    if version == 1 && rows * columns > MOST_ENTRIES {
        return Err(MatrixError::TooLarge { rows, columns });
    }
    Ok(())
}

impl From<AllocError> for MatrixError {
    ghost from_gives = { λ _ e. e ≡ OutOfMemoryError };

    fn from(_: AllocError) -> Self {
        MatrixError::OutOfMemory
    }
}
