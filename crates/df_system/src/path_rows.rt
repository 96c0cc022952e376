// What the rows of a path have, where its yes columns alone are decisions: a no changes no need, and costs nothing here.
// Taking a column and giving it back go along its cells, and write each row's sum and deadline together: that is one step.
// The least deadline tells how far a path may go on with no's; the columns of rows that have their targets are barred for it.
// Deadlines and barred columns are made from the entries without the counter, as divisors are: what counts is each cell that a
// decision changes and each that a column is tried by.
ghost use Rattle.std.specs.Prelude.{◌≡◌, ℕ, ◌+◌, ◌<◌, ◌≤◌, [], ◌∷◌, length, drop, true, false, is_some, Some, None, IsNone, IfOk, IfSome};
ghost use Rattle.std.specs.List.{list_all};
ghost use Rattle.df_walk.specs.Systems.{rows_of, cells, entries, target};
ghost use Rattle.df_walk.specs.Assignments.{least_row};
ghost use Rattle.df_system.specs.PathRows.{taken_by, is_over_in, is_met_in, is_short_from, has_residue_from, least_residue_by, divisor_from, IsLimit, IsBarred, IsClosedRun};
ghost use Rattle.df_system.specs.Deadlines.{IsDeadline, AreAllDeadlines};
ghost use Rattle.df_system.specs.CountedRows.{AreRows, HaveTargets, HaveDeadlines, HaveSmallSums, HaveTaken, RowsAlong, with_entry, without_entry, IsSmallColumn, BarFullRows};
ghost use Rattle.df_walk.specs.declared.Rules.TheVariants.{Divisor};

use crate::OutOfMemory;
use crate::barred::BarredColumns;
use crate::counted_rows::{CountedRows, PathRow};
use crate::deadlines::Deadlines;
use crate::limits::ROW_LIMIT;
use crate::system::System;
use df_steps::Steps;
use df_walk::Rules;
use std::alloc::Global;
use std::marker::Model;
use std::sync::ledger::Ledger;

/// The yes columns of a path of a system, which are taken and given back in the order of a stack, and what each row has under them.
///
/// Contracts see the system, the rules, and the yes columns, the last one first.
#[derive(Drop)]
pub struct PathRows<'m> {
    system: &'m System,
    rules: Rules,
    deadlines: Deadlines,
    rows: CountedRows,
    // the yes columns in the first `count` places, in the order in which they were taken
    trail: Vec<u32>,
    count: usize,
    // the columns of the rows that have their targets, with a level for each yes column
    barred: BarredColumns<'m>,
}

impl<'m> Model for PathRows<'m> {
    ghost use Rattle.std.specs.Prelude.{reverse, take};
    ghost use Rattle.df_system.specs.PathRows.{Yeses};
    ghost use Rattle.df_system.specs.CountedRows.{ArePathRows};

    ghost Value = { Yeses };

    ghost view = { λ p. record { system = p.system.now; rules = p.rules; chosen = reverse (take p.count p.trail.items) } };

    ghost invariant = { λ p. ArePathRows p.system.now p.rules p.deadlines.width p.deadlines.shorts.items p.deadlines.dues.items p.deadlines.far.items p.trail.items p.count p.rows p.barred };
}

/// The row with its target that has taken this much.
fn row_with(
    deadlines: &Deadlines,
    system: &System,
    rules: Rules,
    row: u32,
    goal: u32,
    taken: u64,
) -> PathRow
    requires row { row < length system.now.targets }
    requires goal { goal ≡ target system.now row }
    requires deadlines { AreAllDeadlines system.now rules deadlines.now.width deadlines.now.shorts.items deadlines.now.dues.items deadlines.now.far.items }
    ensures target { result.target ≡ goal }
    ensures taken { result.taken ≡ taken }
    ensures due { IsDeadline rules (entries system.now row) goal taken result.due }
{
    let due = match (goal as u64).checked_sub(taken) {
        Some(need) => deadlines.due(system, rules, row, need as u32),
        None => 0,
    };
    PathRow {
        target: goal,
        due,
        taken,
    }
}

/// Takes a column, in one step for each of its cells, and bars the rows that have their targets since then.
fn take_along<L: Ledger>(
    rows: &mut CountedRows,
    barred: &mut BarredColumns<'_>,
    deadlines: &Deadlines,
    system: &System,
    rules: Rules,
    column: u32,
    steps: &mut Steps<L>,
)
    requires column { column < length system.now.columns }
    requires deadlines { AreAllDeadlines system.now rules deadlines.now.width deadlines.now.shorts.items deadlines.now.dues.items deadlines.now.far.items }
    requires long { length rows.old ≡ length system.now.targets }
    requires targets { HaveTargets system.now rows.old }
    requires due { HaveDeadlines system.now rules rows.old }
    requires small { HaveSmallSums rows.old }
    requires same { barred.old.system ≡ system.now }
    requires some { 0 < length barred.old.levels }
    requires bar { BarFullRows barred.old.levels rows.old }
    ensures along { RowsAlong with_entry (cells system.now column) rows.old rows.new }
    ensures due { HaveDeadlines system.now rules rows.new }
    ensures small { IsSmallColumn system.now column }
    ensures same { barred.new.system ≡ barred.old.system }
    ensures lower { drop 1 barred.new.levels ≡ drop 1 barred.old.levels }
    ensures depth { length barred.new.levels ≡ length barred.old.levels }
    ensures bar { BarFullRows barred.new.levels rows.new }
    ensures cost { steps.new ≡ steps.old + length (cells system.now column) }
{
    for cell in system.column(column) {
        steps.tick();
        let before = rows.get(cell.row as usize);
        let target = before.target as u64;
        let taken = before.taken + cell.value as u64;
        let after = row_with(deadlines, system, rules, cell.row, before.target, taken);
        rows.set(cell.row as usize, after);
        if before.taken < target && target <= taken {
            barred.bar(cell.row);
        }
    }
}

/// Gives a column back, in one step for each of its cells.
fn give_back_along<L: Ledger>(
    rows: &mut CountedRows,
    deadlines: &Deadlines,
    system: &System,
    rules: Rules,
    column: u32,
    steps: &mut Steps<L>,
)
    requires column { column < length system.now.columns }
    requires deadlines { AreAllDeadlines system.now rules deadlines.now.width deadlines.now.shorts.items deadlines.now.dues.items deadlines.now.far.items }
    requires long { length rows.old ≡ length system.now.targets }
    requires targets { HaveTargets system.now rows.old }
    requires due { HaveDeadlines system.now rules rows.old }
    requires taken { HaveTaken (cells system.now column) rows.old }
    ensures along { RowsAlong without_entry (cells system.now column) rows.old rows.new }
    ensures due { HaveDeadlines system.now rules rows.new }
    ensures cost { steps.new ≡ steps.old + length (cells system.now column) }
{
    for cell in system.column(column) {
        steps.tick();
        let before = rows.get(cell.row as usize);
        let taken = before.taken - cell.value as u64;
        let after = row_with(deadlines, system, rules, cell.row, before.target, taken);
        rows.set(cell.row as usize, after);
    }
}

/// The rows of a system where no column is taken.
fn first_rows(
    alloc: Global,
    system: &System,
    rules: Rules,
    deadlines: &Deadlines,
) -> Result<CountedRows, OutOfMemory>
    requires { AreAllDeadlines system.now rules deadlines.now.width deadlines.now.shorts.items deadlines.now.dues.items deadlines.now.far.items }
    ensures { IfOk result (λ rows. AreRows system.now rules [] rows) }
{
    let count = system.rows();
    let mut rows = Vec::with_capacity(alloc, count as usize)?;
    for row in 0..count {
        rows.push(row_with(deadlines, system, rules, row, system.target(row), 0))?;
    }
    Ok(CountedRows::new(rows))
}

/// Bars the rows that have their targets before any column is taken.
fn bar_first(barred: &mut BarredColumns<'_>, rows: &CountedRows)
    requires rows { length rows.now ≡ length barred.old.system.targets }
    requires few { length rows.now < ROW_LIMIT }
    requires empty { barred.old.levels ≡ [] ∷ [] }
    ensures same { barred.new.system ≡ barred.old.system }
    ensures depth { length barred.new.levels ≡ 1 }
    ensures bar { BarFullRows barred.new.levels rows.now }
{
    let count = rows.rows().len();
    for row in 0..count {
        let now = rows.get(row);
        if now.target as u64 <= now.taken {
            barred.bar(row as u32);
        }
    }
}

impl<'m> PathRows<'m> {
    /// No column is taken. It takes the room for all rows, for as many yes columns as there are columns, for deadlines and for barred columns.
    /// It counts no step.
    pub fn new(alloc: Global, system: &'m System, rules: Rules) -> Result<PathRows<'m>, OutOfMemory>
        ensures { IfOk result (λ p. p ≡ record { system = system.now; rules = rules; chosen = [] }) }
    {
        let trail = vec![in alloc; 0; system.columns() as usize]?;
        let deadlines = Deadlines::new(alloc, system, rules)?;
        let rows = first_rows(alloc, system, rules, &deadlines)?;
        let mut barred = BarredColumns::new(alloc, system)?;
        bar_first(&mut barred, &rows);
        Ok(PathRows {
            system,
            rules,
            deadlines,
            rows,
            trail,
            count: 0,
            barred,
        })
    }

    /// Takes a column: a path with one yes more. There may be as many yes columns as there are columns.
    pub fn take<L: Ledger>(&mut self, column: u32, steps: &mut Steps<L>)
        requires column { column < length self.old.system.columns }
        requires room { length self.old.chosen < length self.old.system.columns }
        ensures value { self.new ≡ record self.old { chosen = column ∷ self.old.chosen } }
        ensures cost { steps.new ≡ steps.old + length (cells self.old.system column) }
    {
        self.barred.push();
        take_along(
            &mut self.rows,
            &mut self.barred,
            &self.deadlines,
            self.system,
            self.rules,
            column,
            steps,
        );
        self.trail[self.count] = column;
        self.count += 1;
    }

    /// Gives the last yes column back, and tells it: `None` exactly where there is no yes column.
    pub fn undo<L: Ledger>(&mut self, steps: &mut Steps<L>) -> Option<u32>
        ensures none { IsNone result → (self.old.chosen ≡ []) × (self.new ≡ self.old) × (steps.new ≡ steps.old) }
        ensures value { IfSome result (λ column. self.old ≡ record self.new { chosen = column ∷ self.new.chosen }) }
        ensures within { IfSome result (λ column. column < length self.old.system.columns) }
        ensures cost { IfSome result (λ column. steps.new ≡ steps.old + length (cells self.old.system column)) }
    {
        if self.count == 0 {
            return None;
        }
        let column = self.trail[self.count - 1];
        give_back_along(
            &mut self.rows,
            &self.deadlines,
            self.system,
            self.rules,
            column,
            steps,
        );
        self.barred.pop();
        self.count -= 1;
        Some(column)
    }

    /// The least row that has taken more than its target.
    pub fn first_over(&self) -> Option<u32>
        ensures { result ≡ least_row self.now.system (is_over_in self.now) }
    {
        match self.rows.first_over() {
            Some(row) => Some(row as u32),
            None => None,
        }
    }

    /// Whether some row has taken more than its target.
    pub fn is_over(&self) -> bool
        ensures { result ≡ is_some (least_row self.now.system (is_over_in self.now)) }
    {
        self.rows.is_over()
    }

    /// Whether all rows have taken their targets.
    pub fn is_met(&self) -> bool
        ensures { result ≡ list_all (is_met_in self.now) (rows_of self.now.system) }
    {
        !self.rows.is_unmet()
    }

    /// The need of a row: `None` exactly where it has taken more than its target.
    pub fn need(&self, row: u32) -> Option<u64>
        requires { row < length self.now.system.targets }
        ensures none { IsNone result → target self.now.system row < taken_by self.now row }
        ensures value { IfSome result (λ n. target self.now.system row ≡ taken_by self.now row + n) }
    {
        let row = self.rows.get(row as usize);
        (row.target as u64).checked_sub(row.taken)
    }

    /// The least number of columns that a path with these yes columns may have so that a row rules it out, and one past the columns where none does.
    /// A row does so that is over, or whose need is above what its later entries add up to, or by the divisor's rules that has a residue.
    /// From the limit on each path with further no's is ruled out. It looks at each row.
    pub fn limit(&self) -> u32
        ensures { IsLimit self.now result }
    {
        let mut limit = self.system.columns() + 1;
        for row in self.rows.rows() {
            if row.due < limit {
                limit = row.due;
            }
        }
        limit
    }

    /// Whether the need of a row is above what its entries from a column on add up to. A row that is over isn't short.
    pub fn is_short(&self, row: u32, from: u32) -> bool
        requires row { row < length self.now.system.targets }
        requires from { from ≤ length self.now.system.columns }
        ensures { result ≡ is_short_from self.now from row }
    {
        let now = self.rows.get(row as usize);
        match (now.target as u64).checked_sub(now.taken) {
            Some(need) => self
                .deadlines
                .short(self.system, self.rules, row, need as u32)
                <= from,
            None => false,
        }
    }

    /// The least row whose need is above what its entries from a column on add up to.
    pub fn least_short(&self, from: u32) -> Option<u32>
        requires { from ≤ length self.now.system.columns }
        ensures { result ≡ least_row self.now.system (is_short_from self.now from) }
    {
        for row in 0..self.system.rows() {
            if self.rows.get(row as usize).due <= from && self.is_short(row, from) {
                return Some(row);
            }
        }
        None
    }

    /// The divisor of a row's entries from a column on, where it is at least 2 and doesn't divide the row's need.
    pub fn residue(&self, row: u32, from: u32) -> Option<u32>
        requires row { row < length self.now.system.targets }
        requires from { from ≤ length self.now.system.columns }
        requires not_over { is_over_in self.now row ≡ false }
        ensures none { IsNone result → has_residue_from self.now from row ≡ false }
        ensures some { IfSome result (λ d. has_residue_from self.now from row ≡ true) }
        ensures divisor { IfSome result (λ d. d ≡ divisor_from self.now.system from row) }
    {
        let row_now = self.rows.get(row as usize);
        let need = row_now.target as u64 - row_now.taken;
        if need == 0 {
            return None;
        }
        let divisor = self.system.divisor(row, from);
        if divisor > 1 && need % divisor as u64 != 0 {
            Some(divisor)
        } else {
            None
        }
    }

    /// The least row with a residue, and its divisor, where the rules look for one.
    pub fn least_residue(&self, from: u32) -> Option<(u32, u32)>
        requires from { from ≤ length self.now.system.columns }
        requires none_over { least_row self.now.system (is_over_in self.now) ≡ None }
        ensures none { IsNone result → least_residue_by self.now.rules self.now from ≡ None }
        ensures row { IfSome result (λ found. least_residue_by self.now.rules self.now from ≡ Some found.0) }
        ensures divisor { IfSome result (λ found. found.1 ≡ divisor_from self.now.system from found.0) }
    {
        match self.rules {
            Rules::Plain => None,
            Rules::Divisor => self.first_residue(from),
        }
    }

    fn first_residue(&self, from: u32) -> Option<(u32, u32)>
        requires from { from ≤ length self.now.system.columns }
        requires rules { self.now.rules ≡ Divisor }
        requires none_over { least_row self.now.system (is_over_in self.now) ≡ None }
        ensures none { IsNone result → least_row self.now.system (has_residue_from self.now from) ≡ None }
        ensures row { IfSome result (λ found. least_row self.now.system (has_residue_from self.now from) ≡ Some found.0) }
        ensures divisor { IfSome result (λ found. found.1 ≡ divisor_from self.now.system from found.0) }
    {
        for row in 0..self.system.rows() {
            if self.rows.get(row as usize).due <= from {
                if let Some(divisor) = self.residue(row, from) {
                    return Some((row, divisor));
                }
            }
        }
        None
    }

    /// Whether a column fits: each of its entries is at most its row's need. It counts each cell that it reads.
    pub fn fits<L: Ledger>(&self, column: u32, steps: &mut Steps<L>) -> bool
        requires { column < length self.now.system.columns }
        ensures no { result ≡ false → IsBarred self.now column }
        ensures yes { result ≡ true → IsBarred self.now column → ⊥ }
        ensures rises { steps.old ≤ steps.new }
        ensures cost { steps.new ≤ steps.old + length (cells self.now.system column) }
    {
        for cell in self.system.column(column) {
            steps.tick();
            let row = self.rows.get(cell.row as usize);
            if (row.target as u64) < row.taken + cell.value as u64 {
                return false;
            }
        }
        true
    }

    /// The least row that a column would bring above its target, where no row is above its target: `None` exactly where the column fits.
    /// It counts each cell that it reads.
    pub fn over_with<L: Ledger>(&self, column: u32, steps: &mut Steps<L>) -> Option<u32>
        requires column { column < length self.now.system.columns }
        requires none_over { least_row self.now.system (is_over_in self.now) ≡ None }
        ensures row { result ≡ least_row self.now.system (is_over_in (record self.now { chosen = column ∷ self.now.chosen })) }
        ensures rises { steps.old ≤ steps.new }
        ensures cost { steps.new ≤ steps.old + length (cells self.now.system column) }
    {
        for cell in self.system.column(column) {
            steps.tick();
            let row = self.rows.get(cell.row as usize);
            if (row.target as u64) < row.taken + cell.value as u64 {
                return Some(cell.row);
            }
        }
        None
    }

    /// How many columns from this one on are closed, of those that share its word in `BarredColumns`: each has a positive entry in a row that needs nothing.
    /// Where more columns are taken than levels are kept there, it is 0, which says nothing. It counts no step.
    pub fn run(&self, column: u32) -> u32
        requires { column < length self.now.system.columns }
        ensures exact { IsClosedRun self.now column result }
        ensures barred { (k : ℕ) → k < result → IsBarred self.now (column + k) }
        ensures inside { column + result ≤ length self.now.system.columns }
    {
        self.barred.run(column)
    }
}

#[cfg(test)]
mod tests;
