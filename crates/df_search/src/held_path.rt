// The one path that a search holds: its yes columns as they are taken in its rows, and the path as a list with no for all columns past it, so that a solution is read off without a copy.
// A no changes no need and costs nothing. A yes and its turn to a no cost the cells of the column, and a look at each row for the limit: the number of columns from which on a path with these yes columns is given up.
// So a look at the length says whether the path is given up, and which row gives it up is looked for only where that is to be answered.
// A leap goes on by no's up to the limit, while the next column has an entry above its row's need: columns that are barred are passed many at a time, and each other one is tried by its cells, which are counted.
ghost use Rattle.std.specs.Prelude.{◌≡◌, ℕ, ◌+◌, ◌-◌, ◌*◌, ◌<◌, ◌≤◌, [], ◌∷◌, ◌++◌, length, replicate, not, min, Some, None, IsNone, IfOk, IfSome, Bool, true, false};
ghost use Rattle.df_walk.specs.Systems.{IsSystem, widest};
ghost use Rattle.df_walk.specs.Assignments.{is_settled};
ghost use Rattle.df_walk.specs.Walks.{decided, entry_at, is_branch};
ghost use Rattle.df_walk.specs.declared.Entry.TheVariants.{Over};
ghost use Rattle.df_walk.specs.Remains.{turned};
ghost use Rattle.df_search.specs.HeldPaths.{as_entry, TurnsTo};
ghost use Rattle.df_search.specs.Leaps.{Leaps, is_leaf};

use crate::OutOfMemory;
use df_steps::Steps;
use df_system::{MOST_ENTRIES, PathRows, System};
use df_walk::Rules;
use std::alloc::Global;
use std::marker::Model;
use std::sync::ledger::Ledger;

/// What the rules say of a path.
#[derive(Clone, Copy)]
pub(crate) enum Verdict {
    Over(u32),
    Under(u32),
    Residue(u32, u32),
    Settled,
    Branch,
}

/// A path of a system, by the rules of a search.
#[derive(Drop)]
pub(crate) struct HeldPath<'m> {
    rows: PathRows<'m>,
    // the path, and no for the columns past it
    values: Vec<bool>,
    length: u32,
    // a path with these yes columns is given up where it has at least this many columns
    limit: u32,
}

impl<'m> Model for HeldPath<'m> {
    ghost use Rattle.std.specs.Prelude.{take};
    ghost use Rattle.df_search.specs.HeldPaths.{Held, IsHeld};

    ghost Value = { Held };

    ghost view = { λ h. record { system = h.rows.system; rules = h.rows.rules; path = take h.length h.values.items } };

    ghost invariant = { λ h. IsHeld h.rows h.values.items h.length h.limit };
}

/// The lesser of two numbers.
fn lesser(a: u32, b: u32) -> u32
    ensures { result ≡ min a b }
{
    if a < b { a } else { b }
}

/// Where a leap from a column ends at the latest: this many columns on, and at the end.
fn last_stop(start: u32, most: u64, end: u32) -> u32
    requires { start ≤ end }
    ensures { result ≡ min (start + most) end }
{
    if most < (end - start) as u64 {
        start + most as u32
    } else {
        end
    }
}

impl<'m> HeldPath<'m> {
    /// The empty path. It takes the room for as many decisions as there are columns.
    pub(crate) fn new(
        alloc: Global,
        system: &'m System,
        rules: Rules,
    ) -> Result<HeldPath<'m>, OutOfMemory>
        ensures value { IfOk result (λ h. h ≡ record { system = system.now; rules = rules; path = [] }) }
        ensures system { IsSystem system.now }
    {
        let columns = system.columns();
        let rows = PathRows::new(alloc, system, rules)?;
        let values = vec![in alloc; false; columns as usize]?;
        let limit = rows.limit();
        Ok(HeldPath {
            rows,
            values,
            length: 0,
            limit,
        })
    }

    /// The number of the path's columns.
    pub(crate) fn length(&self) -> u32
        ensures value { result ≡ length self.now.path }
        ensures within { result ≤ length self.now.system.columns }
        ensures few { length self.now.system.columns ≤ MOST_ENTRIES }
        ensures system { IsSystem self.now.system }
    {
        self.length
    }

    /// The path.
    pub(crate) fn path(&self) -> &[bool]
        ensures { result.now ≡ self.now.path }
    {
        &self.values[..self.length as usize]
    }

    /// The path, and no for all later columns.
    pub(crate) fn values(&self) -> &[bool]
        ensures value { result.now ≡ self.now.path ++ replicate (length self.now.system.columns - length self.now.path) false }
        ensures within { length self.now.path ≤ length self.now.system.columns }
    {
        &self.values
    }

    /// Whether all needs are 0.
    pub(crate) fn is_settled(&self) -> bool
        ensures { result ≡ is_settled self.now.system (decided self.now.path) }
    {
        self.rows.is_met()
    }

    /// Whether the path is given up: it is over or under, or has a residue.
    pub(crate) fn is_dead(&self) -> bool
        ensures { result ≡ is_leaf (entry_at self.now.rules self.now.system self.now.path) }
    {
        self.length >= self.limit
    }

    /// Whether the path branches.
    pub(crate) fn is_branch(&self) -> bool
        ensures { result ≡ is_branch (entry_at self.now.rules self.now.system self.now.path) }
    {
        self.length < self.limit && !self.rows.is_met()
    }

    /// Decides the next column.
    pub(crate) fn extend<L: Ledger>(&mut self, yes: bool, steps: &mut Steps<L>)
        requires { length self.old.path < length self.old.system.columns }
        ensures value { self.new ≡ record self.old { path = self.old.path ++ yes ∷ [] } }
        ensures rises { steps.old ≤ steps.new }
        ensures cost { steps.new ≤ steps.old + widest self.old.system.columns }
    {
        let column = self.length;
        self.length = column + 1;
        if yes {
            self.rows.take(column, steps);
            self.values[column as usize] = true;
            self.limit = self.rows.limit();
        }
    }

    /// The least row that is over with yes for the next column, if one is. The column isn't taken for that.
    pub(crate) fn over_with_yes<L: Ledger>(&self, steps: &mut Steps<L>) -> Option<u32>
        requires { is_branch (entry_at self.now.rules self.now.system self.now.path) ≡ true }
        ensures over { IfSome result (λ row. entry_at self.now.rules self.now.system (self.now.path ++ true ∷ []) ≡ Over row) }
        ensures rises { steps.old ≤ steps.new }
        ensures cost { steps.new ≤ steps.old + widest self.now.system.columns }
    {
        self.rows.over_with(self.length, steps)
    }

    /// Goes back to the last yes and turns it to no. False, with the empty path, where there is no yes.
    pub(crate) fn turn<L: Ledger>(&mut self, steps: &mut Steps<L>) -> bool
        ensures turned { TurnsTo (turned self.old.path) result self.new.path }
        ensures system { self.new.system ≡ self.old.system }
        ensures rules { self.new.rules ≡ self.old.rules }
        ensures rises { steps.old ≤ steps.new }
        ensures cost { steps.new + widest self.old.system.columns * length self.new.path ≤ steps.old + widest self.old.system.columns * (length self.old.path + 2) }
    {
        let Some(column) = self.rows.undo(steps) else {
            self.length = 0;
            return false;
        };
        self.values[column as usize] = false;
        self.length = column + 1;
        self.limit = self.rows.limit();
        true
    }

    /// Goes on by no's over nodes whose yes is over at once, at most this many, and says how many it passed.
    pub(crate) fn leap<L: Ledger>(&mut self, most: u64, steps: &mut Steps<L>) -> u64
        requires { is_branch (entry_at self.old.rules self.old.system self.old.path) ≡ true }
        ensures most { result ≤ most }
        ensures value { self.new ≡ record self.old { path = self.old.path ++ replicate result false } }
        ensures leaps { Leaps self.old.rules self.old.system self.old.path result }
        ensures rises { steps.old ≤ steps.new }
        ensures cost { steps.new ≤ steps.old + widest self.old.system.columns * (result + 1) }
    {
        let start = self.length;
        let end = lesser(self.limit, self.values.len() as u32);
        let stop = last_stop(start, most, end);
        let mut column = start;
        while column < stop {
            let run = self.rows.run(column);
            if run > 0 {
                column += lesser(run, stop - column);
            } else if self.rows.fits(column, steps) {
                break;
            } else {
                column += 1;
            }
        }
        self.length = column;
        (column - start) as u64
    }

    /// What the rules say of the path.
    pub(crate) fn judge(&self) -> Verdict
        ensures { as_entry result (length self.now.path) ≡ entry_at self.now.rules self.now.system self.now.path }
    {
        if self.length < self.limit {
            self.judge_live()
        } else {
            self.judge_rows()
        }
    }

    /// What the rules say of a path that isn't given up.
    fn judge_live(&self) -> Verdict
        requires { is_leaf (entry_at self.now.rules self.now.system self.now.path) ≡ false }
        ensures { as_entry result (length self.now.path) ≡ entry_at self.now.rules self.now.system self.now.path }
    {
        if self.rows.is_met() {
            Verdict::Settled
        } else {
            Verdict::Branch
        }
    }

    /// What the rules say of the path, by a look at each row.
    fn judge_rows(&self) -> Verdict
        ensures { as_entry result (length self.now.path) ≡ entry_at self.now.rules self.now.system self.now.path }
    {
        if let Some(row) = self.rows.first_over() {
            return Verdict::Over(row);
        }
        if let Some(row) = self.rows.least_short(self.length) {
            return Verdict::Under(row);
        }
        if let Some((row, divisor)) = self.rows.least_residue(self.length) {
            return Verdict::Residue(row, divisor);
        }
        self.judge_live()
    }
}
