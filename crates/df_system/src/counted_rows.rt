// What each row of a path has, with the numbers of rows that are over and of those that aren't met, so that whether one is over or all are met is read off at once.
// A row is written whole: what it has taken and its deadline change together.
ghost use Rattle.std.specs.Prelude.{◌≡◌, ◌+◌, ◌<◌, ◌≤◌, length, slice_set, vec_len};
ghost use Rattle.df_system.specs.Tallies.{one_if};
ghost use Rattle.df_system.specs.CountedRows.{is_over_row, is_unmet_row, row_at, IsFirstRow, TellsSome};

use crate::limits::ROW_LIMIT;
use crate::tallies::{one_if, recount};
use std::marker::Model;

/// What one row has: its target, the first column from which on it can't meet its need, and the sum of its entries at the yes columns.
#[derive(Clone, Copy)]
pub(crate) struct PathRow {
    pub(crate) target: u32,
    pub(crate) due: u32,
    pub(crate) taken: u64,
}

impl PathRow {
    fn is_over(self) -> bool
        ensures { result ≡ is_over_row self }
    {
        (self.target as u64) < self.taken
    }

    fn is_unmet(self) -> bool
        ensures { result ≡ is_unmet_row self }
    {
        self.target as u64 != self.taken
    }
}

/// The rows of a path, and how many of them are over or not met.
#[derive(Drop)]
pub(crate) struct CountedRows {
    rows: Vec<PathRow>,
    over: usize,
    unmet: usize,
}

impl Model for CountedRows {
    ghost use Rattle.std.specs.Prelude.{List};
    ghost use Rattle.df_system.specs.declared.counted_rows.PathRow.{PathRow};
    ghost use Rattle.df_system.specs.CountedRows.{AreCountedRows};

    ghost Value = { List PathRow };

    ghost view = { λ r. r.rows.items };

    ghost invariant = { λ r. AreCountedRows r.rows.items r.over r.unmet };
}

impl CountedRows {
    /// These rows.
    pub(crate) fn new(rows: Vec<PathRow>) -> CountedRows
        requires few { vec_len rows < ROW_LIMIT }
        ensures { result ≡ rows.items }
    {
        let mut over = 0;
        let mut unmet = 0;
        for row in 0..rows.len() {
            over += one_if(rows[row].is_over());
            unmet += one_if(rows[row].is_unmet());
        }
        CountedRows { rows, over, unmet }
    }

    /// A row.
    pub(crate) fn get(&self, row: usize) -> PathRow
        requires { row < length self.now }
        ensures { result ≡ row_at self.now row }
    {
        self.rows[row]
    }

    /// All rows.
    pub(crate) fn rows(&self) -> &[PathRow]
        ensures { result.now ≡ self.now }
    {
        &self.rows
    }

    /// Puts a row in the place of what stood there.
    pub(crate) fn set(&mut self, row: usize, after: PathRow)
        requires { row < length self.old }
        ensures { self.new ≡ slice_set self.old row after }
    {
        let before = self.rows[row];
        self.over = recount(self.over, before.is_over(), after.is_over());
        self.unmet = recount(self.unmet, before.is_unmet(), after.is_unmet());
        self.rows[row] = after;
    }

    /// Whether a row has taken more than its target.
    pub(crate) fn is_over(&self) -> bool
        ensures { TellsSome is_over_row self.now result }
    {
        self.over > 0
    }

    /// Whether a row has taken more or less than its target.
    pub(crate) fn is_unmet(&self) -> bool
        ensures { TellsSome is_unmet_row self.now result }
    {
        self.unmet > 0
    }

    /// The first row that has taken more than its target.
    pub(crate) fn first_over(&self) -> Option<usize>
        ensures { IsFirstRow is_over_row self.now result }
    {
        if self.over == 0 {
            return None;
        }
        for row in 0..self.rows.len() {
            if self.rows[row].is_over() {
                return Some(row);
            }
        }
        None
    }
}
