// The rows and columns of an orbit matrix.
ghost use Rattle.std.specs.Prelude.{◌≡◌, ◌+◌, ◌<◌, ◌≤◌, ◌++◌, ℕ, false, length, map, filter, replicate, All, Some, slice_get, slice_index_or, IfOk, IfSome, IsNone, vec_len};
ghost use Rattle.std.specs.List.{range_with_len};
ghost use Rattle.std.specs.List.Sorted.{IsStrictlyIncreasing};
ghost use Rattle.df_lists.specs.Membership.{In};
ghost use Rattle.df_lang.specs.Problems.{point_count, IsBlock, IsStated};
ghost use Rattle.df_kramer_mesner.specs.OrbitSystems.{pairs_of, orbits_of, needed_of, pair_target, targets_of as all_targets, has_in_orbit, is_kept, orbit_system, orbit_at, cells_of};
ghost use Rattle.df_matrix.specs.MatrixParts.{needed_places, kept_places};

use crate::OutOfMemory;
use crate::cells::{OrbitCells, fit, pair_cells};
use crate::matrix::MOST_COLUMNS;
use crate::orbits::ProblemOrbits;
use df_kramer_mesner::{columns_are_sparse, orbit_systems_are_systems, rows_are_pairs_and_needed};
use df_lang::target;
use df_orbits::MOST_SUMMED;
use df_subsets::{Block, blocks_are_ordered, candidates_are_all};
use df_system::{Cell, Columns, System, SystemError};
use std::alloc::{AllocError, Global};

// No mark at any orbit.
fn no_marks(alloc: Global, count: usize) -> Result<Vec<bool>, OutOfMemory>
    ensures { IfOk result (λ marks. marks.items ≡ replicate count false) }
{
    vec![in alloc; false; count]
}

/// For each orbit, whether it has one of the listed blocks.
pub fn marked(
    alloc: Global,
    orbits: &ProblemOrbits,
    blocks: &[Block],
) -> Result<Vec<bool>, OutOfMemory>
    requires { All (IsBlock (point_count orbits.now) orbits.now.sizes) blocks.now }
    ensures { IfOk result (λ marks. marks.items ≡ map (has_in_orbit orbits.now blocks.now) (orbits_of orbits.now)) }
{
    let mut marks = no_marks(alloc, orbits.orbit_count())?;
    for block in blocks {
        marks[orbits.orbit_of(block)] = true;
    }
    Ok(marks)
}

/// The places of the marks.
pub fn numbers_of(alloc: Global, marks: &[bool]) -> Result<Vec<u32>, OutOfMemory>
    requires { length marks.now ≤ MOST_SUMMED }
    ensures { IfOk result (λ numbers. numbers.items ≡ filter (λ i. slice_index_or marks.now i false) (range_with_len 0 (length marks.now))) }
{
    let mut numbers = Vec::new(alloc);
    for i in 0..marks.len() {
        if !marks[i] {
            continue;
        }
        numbers.push(i as u32)?;
    }
    Ok(numbers)
}

// The targets of the rows of pairs.
fn pair_targets(alloc: Global, orbits: &ProblemOrbits) -> Result<Vec<u32>, OutOfMemory>
    ensures { IfOk result (λ targets. targets.items ≡ map (pair_target orbits.now) (pairs_of orbits.now)) }
{
    let mut targets = Vec::new(alloc);
    for row in 0..orbits.pair_count() {
        let (p, q) = orbits.pair(row);
        targets.push(target(orbits.problem(), p, q))?;
    }
    Ok(targets)
}

/// The targets of the rows: those of the pairs, and 1 for each orbit with a required block.
pub fn targets_of(
    alloc: Global,
    orbits: &ProblemOrbits,
    needed: usize,
) -> Result<Vec<u32>, OutOfMemory>
    requires { needed ≡ length (needed_of orbits.now) }
    ensures { IfOk result (λ targets. targets.items ≡ all_targets orbits.now) }
{
    let mut targets = pair_targets(alloc, orbits)?;
    for _i in 0..needed {
        targets.push(1)?;
    }
    Ok(targets)
}

// Whether an orbit is kept.
fn keeps(orbits: &ProblemOrbits, targets: &[u32], forbidden: &[bool], orbit: usize) -> bool
    requires orbit { orbit < length (orbits_of orbits.now) }
    requires targets { targets.now ≡ all_targets orbits.now }
    requires forbidden { forbidden.now ≡ map (has_in_orbit orbits.now orbits.now.forbidden) (orbits_of orbits.now) }
    ensures { result ≡ is_kept orbits.now (orbit_at orbits.now orbit) }
{
    rows_are_pairs_and_needed();
    let cells = pair_cells(orbits, orbit);
    if forbidden[orbit] {
        return false;
    }
    fit(cells.as_slice(), targets)
}

/// The numbers of the orbits that are kept.
pub fn kept_of(
    alloc: Global,
    orbits: &ProblemOrbits,
    targets: &[u32],
    forbidden: &[bool],
) -> Result<Vec<u32>, OutOfMemory>
    requires targets { targets.now ≡ all_targets orbits.now }
    requires forbidden { forbidden.now ≡ map (has_in_orbit orbits.now orbits.now.forbidden) (orbits_of orbits.now) }
    ensures { IfOk result (λ kept. kept.items ≡ kept_places orbits.now) }
{
    let mut kept = Vec::new(alloc);
    for orbit in 0..orbits.orbit_count() {
        if !keeps(orbits, targets, forbidden, orbit) {
            continue;
        }
        kept.push(orbit as u32)?;
    }
    Ok(kept)
}

/// The place of a number in an increasing list.
pub fn place_in(numbers: &[u32], number: u32) -> Option<u32>
    requires increasing { IsStrictlyIncreasing numbers.now }
    requires few { length numbers.now ≤ MOST_SUMMED }
    ensures some { IfSome result (λ place. slice_get numbers.now place ≡ Some number) }
    ensures none { IsNone result → In numbers.now number → ⊥ }
{
    match numbers.binary_search(&number) {
        Ok(place) => Some(place as u32),
        Err(_) => None,
    }
}

/// All positive entries of an orbit, in the order of their rows: those of pairs, and 1 in its own row where it has a required block.
pub fn orbit_cells(orbits: &ProblemOrbits, needed: &[u32], orbit: usize) -> OrbitCells
    requires orbit { orbit < length (orbits_of orbits.now) }
    requires needed { needed.now ≡ needed_places orbits.now }
    ensures cells { result.items ≡ cells_of orbits.now (orbit_at orbits.now orbit) }
    ensures few { length result.items ≤ 121 }
{
    blocks_are_ordered();
    candidates_are_all();
    columns_are_sparse();
    orbits.orbit_count();
    let pairs = orbits.pair_count();
    let mut cells = pair_cells(orbits, orbit);
    match place_in(needed, orbit as u32) {
        Some(place) => {
            cells.push(Cell {
                row: pairs + place,
                value: 1,
            });
            cells
        }
        None => cells,
    }
}

// The columns of these orbits.
fn columns_of(
    alloc: Global,
    orbits: &ProblemOrbits,
    needed: &[u32],
    numbers: &[u32],
) -> Result<Columns, OutOfMemory>
    requires needed { needed.now ≡ needed_places orbits.now }
    requires numbers { All (λ orbit. orbit < length (orbits_of orbits.now)) numbers.now }
    requires few { length numbers.now ≤ MOST_COLUMNS }
    ensures columns { IfOk result (λ columns. columns ≡ map (λ orbit. cells_of orbits.now (orbit_at orbits.now orbit)) numbers.now) }
{
    let mut columns = Columns::with_capacity(alloc, numbers.len(), 0)?;
    for number in numbers {
        columns.push(orbit_cells(orbits, needed, *number as usize).as_slice())?;
    }
    Ok(columns)
}

/// The system of the kept orbits.
pub fn system_of(
    alloc: Global,
    orbits: &ProblemOrbits,
    targets: Vec<u32>,
    needed: &[u32],
    kept: &[u32],
) -> Result<System, OutOfMemory>
    requires stated { IsStated orbits.now }
    requires targets { targets.items ≡ all_targets orbits.now }
    requires needed { needed.now ≡ needed_places orbits.now }
    requires kept { kept.now ≡ kept_places orbits.now }
    requires few { length kept.now ≤ MOST_COLUMNS }
    ensures { IfOk result (λ system. system ≡ orbit_system orbits.now) }
{
    let columns = columns_of(alloc, orbits, needed, kept)?;
    orbit_systems_are_systems();
    columns_are_sparse();
    match System::from_columns(alloc, targets, columns) {
        Ok(system) => Ok(system),
        Err(SystemError::OutOfMemory) => Err(AllocError),
        Err(SystemError::ZeroColumn(_)) => unreachable!(),
    }
}
