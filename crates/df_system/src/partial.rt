ghost use Rattle.std.specs.Prelude.{◌≡◌, ℕ, ◌+◌, ◌*◌, ◌<◌, ◌≤◌, [], ◌∷◌, length, pos, replicate, slice_get, slice_set, Some, None, IsNone, IfOk, Bool, true, false, All, vec_len};
ghost use Rattle.df_walk.specs.Systems.{IsSystem, cells, entries};
ghost use Rattle.df_walk.specs.Assignments.{cap, need, is_settled, least_over, least_under};
ghost use Rattle.df_system.specs.Tallies.{AreTallied, AddsCaps, FitsTally, tally_at};

use crate::OutOfMemory;
use crate::system::System;
use crate::tallies::{Change, Tallies, Tally};
use df_steps::Steps;
use std::alloc::Global;
use std::marker::Model;
use std::sync::ledger::Ledger;

/// Decisions for some columns of a system, in any order, which are taken back in the order of a stack.
/// Each row's need and cap is kept, and a decision changes them along its column's positive entries alone.
///
/// Contracts see the system, the decision of each column, and the decided columns, the last one first.
#[derive(Drop)]
pub struct Partial<'m> {
    system: &'m System,
    decisions: Vec<Option<bool>>,
    // the decided columns in the first `count` places, in the order in which they were decided
    trail: Vec<u32>,
    count: usize,
    tallies: Tallies,
}

impl<'m> Model for Partial<'m> {
    ghost use Rattle.std.specs.Prelude.{reverse, take};
    ghost use Rattle.df_system.specs.Trails.{Assigned, IsPartial};

    ghost Value = { Assigned };

    ghost view = { λ p. record { system = p.system.now; decisions = p.decisions.items; trail = reverse (take p.count p.trail.items) } };

    ghost invariant = { λ p. IsPartial p.system.now p.decisions.items p.trail.items p.count p.tallies };
}

/// Adds all entries of each row to its cap.
fn add_caps(tallies: &mut Vec<Tally>, system: &System)
    requires blank { (row : ℕ) → row < vec_len tallies.old → (tally_at tallies.old.items row).taken + (tally_at tallies.old.items row).cap ≡ 0 }
    requires long { vec_len tallies.old ≡ length system.now.targets }
    ensures along { AddsCaps system.now tallies.old.items tallies.new.items }
    ensures fit { All FitsTally tallies.new.items }
{
    for cell in system.all_cells() {
        let row = cell.row as usize;
        tallies[row] = tallies[row].changed(Change::LeaveBack, cell.value);
    }
}

/// The tallies of a system's rows with nothing decided.
fn tally_all(alloc: Global, system: &System) -> Result<Tallies, OutOfMemory>
    ensures { IfOk result (λ t. AreTallied system.now (replicate (length system.now.columns) None) t) }
{
    let rows = system.rows();
    let mut tallies = Vec::with_capacity(alloc, rows as usize)?;
    for row in 0..rows {
        tallies.push(Tally {
            target: system.target(row),
            taken: 0,
            cap: 0,
        })?;
    }
    add_caps(&mut tallies, system);
    Ok(Tallies::new(tallies))
}

impl<'m> Partial<'m> {
    /// Nothing decided. It takes the room for all rows, and for as many decisions as there are columns.
    pub fn new(alloc: Global, system: &'m System) -> Result<Partial<'m>, OutOfMemory>
        ensures { IfOk result (λ p. p ≡ record { system = system.now; decisions = replicate (length system.now.columns) None; trail = [] }) }
    {
        let columns = system.columns() as usize;
        let decisions = vec![in alloc; None; columns]?;
        let trail = vec![in alloc; 0; columns]?;
        let tallies = tally_all(alloc, system)?;
        Ok(Partial {
            system,
            decisions,
            trail,
            count: 0,
            tallies,
        })
    }

    /// The decision for a column: `None` where it has none.
    pub fn decided(&self, column: u32) -> Option<bool>
        requires { column < length self.now.system.columns }
        ensures value { slice_get self.now.decisions column ≡ Some result }
        ensures room { IsNone result → length self.now.trail < length self.now.system.columns }
        ensures system { IsSystem self.now.system }
        ensures long { length self.now.decisions ≡ length self.now.system.columns }
    {
        self.decisions[column as usize]
    }

    /// The need of a row: its target less the entries of the yes columns.
    pub fn need(&self, row: u32) -> i64
        requires { row < length self.now.system.targets }
        ensures { result ≡ need self.now.system self.now.decisions row }
    {
        let tally = self.tallies.get(row as usize);
        tally.target as i64 - tally.taken as i64
    }

    /// The cap of a row: the entries of the undecided columns, added up.
    pub fn cap(&self, row: u32) -> i64
        requires { row < length self.now.system.targets }
        ensures { result ≡ pos (cap (entries self.now.system row) self.now.decisions) }
    {
        self.tallies.get(row as usize).cap as i64
    }

    /// The least row whose need is negative.
    pub fn over(&self) -> Option<u32>
        ensures { result ≡ least_over self.now.system self.now.decisions }
    {
        match self.tallies.first_over() {
            Some(row) => Some(row as u32),
            None => None,
        }
    }

    /// The least row whose need is above its cap.
    pub fn under(&self) -> Option<u32>
        ensures { result ≡ least_under self.now.system self.now.decisions }
    {
        match self.tallies.first_under() {
            Some(row) => Some(row as u32),
            None => None,
        }
    }

    /// Whether all needs are 0.
    pub fn settled(&self) -> bool
        ensures { result ≡ is_settled self.now.system self.now.decisions }
    {
        self.tallies.all_met()
    }

    /// Decides yes for an undecided column.
    pub fn take<L: Ledger>(&mut self, column: u32, steps: &mut Steps<L>)
        requires { slice_get self.old.decisions column ≡ Some None }
        ensures value { self.new ≡ record self.old { decisions = slice_set self.old.decisions column (Some true); trail = column ∷ self.old.trail } }
        ensures cost { steps.new ≡ steps.old + length (cells self.old.system column) }
    {
        self.decide(column, true, steps);
    }

    /// Decides no for an undecided column.
    pub fn leave<L: Ledger>(&mut self, column: u32, steps: &mut Steps<L>)
        requires { slice_get self.old.decisions column ≡ Some None }
        ensures value { self.new ≡ record self.old { decisions = slice_set self.old.decisions column (Some false); trail = column ∷ self.old.trail } }
        ensures cost { steps.new ≡ steps.old + length (cells self.old.system column) }
    {
        self.decide(column, false, steps);
    }

    fn decide<L: Ledger>(&mut self, column: u32, yes: bool, steps: &mut Steps<L>)
        requires { slice_get self.old.decisions column ≡ Some None }
        ensures value { self.new ≡ record self.old { decisions = slice_set self.old.decisions column (Some yes); trail = column ∷ self.old.trail } }
        ensures cost { steps.new ≡ steps.old + length (cells self.old.system column) }
    {
        let change = Change::deciding(yes);
        self.tallies
            .change_along(self.system.column(column), change, steps);
        self.decisions[column as usize] = Some(yes);
        self.trail[self.count] = column;
        self.count += 1;
    }

    /// Takes the last decision back, and tells its column.
    pub fn undo<L: Ledger>(&mut self, steps: &mut Steps<L>) -> u32
        requires { 0 < length self.old.trail }
        ensures last { self.old.trail ≡ result ∷ self.new.trail }
        ensures decided { (yes : Bool) × (slice_get self.old.decisions result ≡ Some (Some yes)) }
        ensures decisions { self.new.decisions ≡ slice_set self.old.decisions result None }
        ensures system { self.new.system ≡ self.old.system }
        ensures cost { steps.new ≡ steps.old + length (cells self.old.system result) }
    {
        self.count -= 1;
        let column = self.trail[self.count];
        let change = Change::taking_back(self.decisions[column as usize]);
        self.tallies
            .change_along(self.system.column(column), change, steps);
        self.decisions[column as usize] = None;
        column
    }
}
