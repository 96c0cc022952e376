// The table of pairs: a row for each orbit of pairs of points under the stated shifts.
//
// Where all elements shift, an orbit is told by a difference. Under a proper subgroup two pairs with one difference may lie in
// different orbits, so a row is told by a pair: the representative of its orbit. All pairs, at most 8,128, are gone through in
// order. For each the pairs of its orbit are found, at two differences for each shift, and each that is a representative has a
// row, at a look for two points into each block for each shift. So a table takes about as many looks as there are pairs times
// blocks, whatever the subgroup: the fewer shifts there are, the more rows.
ghost use Rattle.std.specs.Prelude.{◌≡◌, ◌+◌, ◌<◌, ◌≤◌, ◌++◌, map, filter, length, All, IfOk, OnOk};
ghost use Rattle.std.specs.List.{position};
ghost use Rattle.df_group.specs.Subgroups.{IsSubgroup};
ghost use Rattle.df_lang.specs.Problems.{IsStated, point_count};
ghost use Rattle.df_mixed.specs.PairOrbits.{pairs_from, is_row};
ghost use Rattle.df_mixed.specs.MixedTables.{mixed_table, pair_entry, pair_entry_at, is_wrong, IsPair};
ghost use Rattle.df_mixed.specs.Origins.{counted, IsDivisor};

use crate::OutOfMemory;
use crate::blocks::{Counted, counted_blocks, shares_of};
use crate::pairs::{is_representative_pair, origins, stated_shifts};
use df_group::Subgroup;
use df_lang::{Problem, target};
use df_subsets::Point;
use std::alloc::Global;
use std::marker::Model;

/// A row with its numbers.
#[derive(Clone, Copy, Debug)]
pub struct PairEntry {
    pub pair: (Point, Point),
    pub found: u64,
    pub stated: u64,
}

/// The table of a mixed family, seen as the list of its rows with their numbers: how often the pairs of an orbit are found, and how often
/// that is stated.
#[derive(Drop)]
pub struct MixedTable {
    entries: Vec<PairEntry>,
}

impl Model for MixedTable {
    ghost use Rattle.std.specs.Prelude.{List};
    ghost use Rattle.df_mixed.specs.declared.table.PairEntry.{PairEntry};

    ghost Value = { List PairEntry };

    ghost view = { λ t. t.entries.items };
}

impl MixedTable {
    /// How many rows there are.
    pub fn len(&self) -> usize
        ensures { result ≡ length self.now }
    {
        self.entries.len()
    }

    /// The pair of the row at this place, from 0: the representative of its orbit, the lower point first.
    pub fn pair(&self, place: usize) -> (Point, Point)
        requires { place < length self.now }
        ensures { result ≡ (pair_entry_at self.now place).pair }
    {
        self.entries[place].pair
    }

    /// How often the pairs of the row at this place are found.
    pub fn found(&self, place: usize) -> u64
        requires { place < length self.now }
        ensures { result ≡ (pair_entry_at self.now place).found }
    {
        self.entries[place].found
    }

    /// How often the pairs of the row at this place are stated.
    pub fn stated(&self, place: usize) -> u64
        requires { place < length self.now }
        ensures { result ≡ (pair_entry_at self.now place).stated }
    {
        self.entries[place].stated
    }

    /// The first place whose two numbers differ. `None` exactly where none does.
    pub fn first_wrong(&self) -> Option<usize>
        ensures { result ≡ position is_wrong self.now }
    {
        self.entries.iter().position(|e| e.found != e.stated)
    }
}

/// The table of the problem's family under its stated shifts: a row for each orbit of pairs of points, by its
/// representative, in order.
/// The only error is out of memory.
pub fn pair_table(alloc: Global, problem: &Problem) -> Result<MixedTable, OutOfMemory>
    ensures table { IfOk result (λ t. t ≡ mixed_table problem.now) }
    ensures rows { All (λ e. IsPair problem.now e.pair) (mixed_table problem.now) }
{
    let shifts = stated_shifts(problem);
    let blocks = counted_blocks(alloc, problem, &shifts)?;
    let mut entries = Vec::new(alloc);
    for p in 0..problem.points() {
        push_rows_from(&mut entries, problem, &shifts, blocks.as_slice(), Point(p))?;
    }
    Ok(MixedTable { entries })
}

// The rows whose first point is p.
fn push_rows_from(
    entries: &mut Vec<PairEntry>,
    problem: &Problem,
    shifts: &Subgroup,
    blocks: &[Counted],
    p: Point,
) -> Result<(), OutOfMemory>
    requires subgroup { IsSubgroup problem.now.group shifts.now }
    requires blocks { blocks.now ≡ map (counted problem.now shifts.now) problem.now.family }
    requires divisors { All IsDivisor blocks.now }
    requires few { length blocks.now ≤ 4096 }
    requires p { p < point_count problem.now }
    ensures { OnOk result (entries.new.items ≡ entries.old.items ++ map (pair_entry problem.now shifts.now) (filter (is_row problem.now shifts.now) (pairs_from problem.now p))) }
{
    let points = problem.points();
    for number in p.0 + 1..points {
        let q = Point(number);
        let origins = origins(problem, shifts, p, q);
        if is_representative_pair(p, q, origins.as_slice()) {
            entries.push(PairEntry {
                pair: (p, q),
                found: shares_of(blocks, origins.as_slice()),
                stated: u64::from(target(problem, p, q)),
            })?;
        }
    }
    Ok(())
}
