ghost use Rattle.std.specs.Prelude.{◌≡◌, ◌≢◌, ℕ, ◌+◌, ◌-◌, ◌*◌, ◌%◌, ◌<◌, ◌≤◌, [], ◌∷◌, ◌++◌, length, drop, slice_index, All, IfOk, IfErr, IfSome, IsNone, vec_len};
ghost use Rattle.df_walk.specs.Systems.{IsSystem, AreCells, entry_of, entries, entry, target, cells};
ghost use Rattle.df_walk.specs.Assignments.{cap, common_divisor};
ghost use Rattle.df_system.specs.Storage.{AreStarts, columns_of, dense_columns, stored, IsDense, IsZeroColumn, IsZeroAmong};
ghost use Rattle.df_system.specs.PathRows.{IsFirstResidue};

use crate::OutOfMemory;
use crate::columns::Columns;
use crate::divisors::{Divisors, link_columns};
use crate::limits::{MOST_COLUMNS, MOST_ENTRIES, ROW_LIMIT};
use df_steps::Steps;
use df_walk::Cell;
use std::alloc::Global;
use std::marker::Model;
use std::sync::ledger::Ledger;

/// A target for each row and the positive entries of each column, at least one in each: the form of an orbit matrix (Kramer and Mesner 1976).
/// Rows and columns are numbered from 0.
#[derive(Drop)]
pub struct System {
    targets: Vec<u32>,
    // where each column starts among the cells, and last their number
    starts: Vec<u32>,
    cells: Vec<Cell>,
    divisors: Divisors,
}

impl Model for System {
    ghost use Rattle.df_walk.specs.Systems.{System as spec};
    ghost use Rattle.df_system.specs.Storage.{stored};
    ghost use Rattle.df_system.specs.Divisors.{IsStoredWith};

    ghost Value = { spec };

    ghost view = { λ s. stored s.targets.items s.starts.items s.cells.items };

    ghost invariant = { λ s. IsStoredWith s.targets.items s.starts.items s.cells.items s.divisors.heads.items s.divisors.links.items };
}

/// Why a system can't be made.
#[derive(Clone, Copy, Debug, Eq, PartialEq)]
pub enum SystemError {
    /// The first column without a positive entry.
    ZeroColumn(u32),
    OutOfMemory,
}

/// The entry of a row in a column, by halving.
fn value_in(column: &[Cell], row: u32) -> u32
    requires { (rows : ℕ) × AreCells rows column.now }
    ensures { result ≡ entry_of column.now row }
{
    match column.binary_search_by_key(&row, |cell| cell.row) {
        Ok(place) => column[place].value,
        Err(_) => 0,
    }
}

/// The positive entries of columns of this many rows, which stand one after another.
fn dense_columns(alloc: Global, rows: usize, entries: &[u32]) -> Result<Columns, OutOfMemory>
    requires some { 0 < rows }
    requires few_rows { rows < ROW_LIMIT }
    requires few { length entries.now ≤ MOST_ENTRIES }
    ensures { IfOk result (λ c. c ≡ dense_columns rows entries.now) }
{
    let count = entries.len() / rows;
    let positive = entries.iter().filter(|entry| **entry > 0).count();
    let mut columns = Columns::with_capacity(alloc, count, positive)?;
    for column in 0..count {
        let start = column * rows;
        columns.push_entries(&entries[start..start + rows])?;
    }
    Ok(columns)
}

/// The first column without a cell.
fn first_empty(starts: &[u32]) -> Option<u32>
    requires some { 0 < length starts.now }
    requires few { length starts.now ≤ MOST_ENTRIES + 1 }
    ensures none { IsNone result → (k : ℕ) → k + 1 < length starts.now → slice_index starts.now k ≢ slice_index starts.now (k + 1) }
    ensures found { IfSome result (λ c. (c + 1 < length starts.now) × (slice_index starts.now c ≡ slice_index starts.now (c + 1)) × ((k : ℕ) → k < c → slice_index starts.now k ≢ slice_index starts.now (k + 1))) }
{
    for column in 0..starts.len() - 1 {
        if starts[column] == starts[column + 1] {
            return Some(column as u32);
        }
    }
    None
}

impl System {
    /// A system of these parts, if each column has a cell.
    fn from_parts(
        alloc: Global,
        targets: Vec<u32>,
        starts: Vec<u32>,
        cells: Vec<Cell>,
    ) -> Result<System, SystemError>
        requires starts { AreStarts starts.items (length cells.items) }
        requires columns { All (AreCells (length targets.items)) (columns_of starts.items cells.items) }
        requires few_rows { vec_len targets < ROW_LIMIT }
        requires few_columns { vec_len starts ≤ MOST_ENTRIES + 1 }
        requires few_cells { vec_len cells ≤ MOST_ENTRIES }
        ensures ok { IfOk result (λ s. s ≡ stored targets.items starts.items cells.items) }
        ensures system { IfOk result IsSystem }
        ensures zero_column { IfErr result (IsZeroColumn (columns_of starts.items cells.items)) }
    {
        if let Some(column) = first_empty(&starts) {
            return Err(SystemError::ZeroColumn(column));
        }
        let Ok(divisors) = link_columns(alloc, targets.len(), &starts, &cells) else {
            return Err(SystemError::OutOfMemory);
        };
        Ok(System {
            targets,
            starts,
            cells,
            divisors,
        })
    }

    /// A system of these targets and columns.
    ///
    /// The conditions: in each column the rows increase and are in range, and the values are positive; there are at most `MOST_ENTRIES` columns, and fewer rows than `ROW_LIMIT`.
    /// `ZeroColumn` comes exactly where a column has no cell, with the first such column.
    pub fn from_columns(
        alloc: Global,
        targets: Vec<u32>,
        columns: Columns,
    ) -> Result<System, SystemError>
        requires columns { All (AreCells (length targets.items)) columns }
        requires few_rows { vec_len targets < ROW_LIMIT }
        requires few_columns { length columns ≤ MOST_ENTRIES }
        ensures ok { IfOk result (λ s. s ≡ record { targets = targets.items; columns = columns }) }
        ensures system { IfOk result IsSystem }
        ensures zero_column { IfErr result (IsZeroColumn columns) }
    {
        let Columns { starts, cells } = columns;
        System::from_parts(alloc, targets, starts, cells)
    }

    /// A system of these targets, with the entries column after column, each column's by its rows.
    ///
    /// The conditions: there is a row, there are fewer rows than `ROW_LIMIT`, and the number of entries is a multiple of theirs and at most `MOST_ENTRIES`.
    /// `ZeroColumn` comes exactly where a column has no positive entry, with the first such column, unless memory runs out before.
    pub fn new(alloc: Global, targets: Vec<u32>, entries: Vec<u32>) -> Result<System, SystemError>
        requires row { 0 < vec_len targets }
        requires few_rows { vec_len targets < ROW_LIMIT }
        requires whole_columns { vec_len entries % vec_len targets ≡ 0 }
        requires few { vec_len entries ≤ MOST_ENTRIES }
        ensures ok { IfOk result (IsDense targets.items entries.items) }
        ensures zero_column { IfErr result (IsZeroAmong (length targets.items) entries.items) }
    {
        let Ok(columns) = dense_columns(alloc, targets.len(), &entries) else {
            return Err(SystemError::OutOfMemory);
        };
        System::from_columns(alloc, targets, columns)
    }

    /// A system of these targets and cells: column k has the cells from place `starts[k]` up to `starts[k + 1]`.
    ///
    /// The conditions: `starts` begins with 0, doesn't fall, ends with the number of cells, and has one number more than there are columns.
    /// In each column the rows increase and are in range, and the values are positive.
    /// There are at most `MOST_ENTRIES` cells and `MOST_COLUMNS` columns, and fewer rows than `ROW_LIMIT`; there may be none.
    /// `ZeroColumn` comes exactly where a column has no cell, with the first such column.
    pub fn sparse(
        alloc: Global,
        targets: Vec<u32>,
        starts: Vec<u32>,
        cells: Vec<Cell>,
    ) -> Result<System, SystemError>
        requires starts { AreStarts starts.items (length cells.items) }
        requires columns { All (AreCells (length targets.items)) (columns_of starts.items cells.items) }
        requires few_rows { vec_len targets < ROW_LIMIT }
        requires few_columns { vec_len starts ≤ MOST_COLUMNS + 1 }
        requires few_cells { vec_len cells ≤ MOST_ENTRIES }
        ensures ok { IfOk result (λ s. s ≡ stored targets.items starts.items cells.items) }
        ensures system { IfOk result IsSystem }
        ensures zero_column { IfErr result (IsZeroColumn (columns_of starts.items cells.items)) }
    {
        System::from_parts(alloc, targets, starts, cells)
    }

    /// The number of rows.
    pub fn rows(&self) -> u32
        ensures value { result ≡ length self.now.targets }
        ensures system { IsSystem self.now }
    {
        self.targets.len() as u32
    }

    /// The number of columns.
    pub fn columns(&self) -> u32
        ensures value { result ≡ length self.now.columns }
        ensures few { result ≤ MOST_ENTRIES }
        ensures system { IsSystem self.now }
    {
        (self.starts.len() - 1) as u32
    }

    /// The target of a row.
    pub fn target(&self, row: u32) -> u32
        requires { row < length self.now.targets }
        ensures { result ≡ target self.now row }
    {
        self.targets[row as usize]
    }

    /// The cells of a column.
    pub(crate) fn column(&self, column: u32) -> &[Cell]
        requires { column < length self.now.columns }
        ensures value { result.now ≡ cells self.now column }
        ensures sorted { AreCells (length self.now.targets) result.now }
    {
        let start = self.starts[column as usize] as usize;
        let end = self.starts[column as usize + 1] as usize;
        &self.cells[start..end]
    }

    /// The cells of all columns, one after another.
    pub(crate) fn all_cells(&self) -> &[Cell]
        ensures few { length result.now ≤ MOST_ENTRIES }
        ensures rows { All (λ cell. cell.row < length self.now.targets) result.now }
        ensures sums { (row : ℕ) → entry_of result.now row ≡ cap (entries self.now row) [] }
    {
        &self.cells
    }

    /// The entry of a row and a column. It counts one step.
    pub fn entry<L: Ledger>(&self, row: u32, column: u32, steps: &mut Steps<L>) -> u32
        requires row { row < length self.now.targets }
        requires column { column < length self.now.columns }
        ensures value { result ≡ entry self.now row column }
        ensures cost { steps.new ≡ steps.old + 1 }
    {
        steps.tick();
        value_in(self.column(column), row)
    }

    /// The greatest common divisor of a row's entries in the columns from `from` on, and 0 where all are 0. It counts no step.
    /// It goes along the columns up to `from` at which this divisor changes, of which a row has at most 32.
    pub fn divisor(&self, row: u32, from: u32) -> u32
        requires row { row < length self.now.targets }
        requires from { from ≤ length self.now.columns }
        ensures { result ≡ common_divisor (drop from (entries self.now row)) }
    {
        let mut place = self.divisors.heads[row as usize];
        while self.divisors.links[place].column < from as usize {
            place = self.divisors.links[place].next;
        }
        self.divisors.links[place].divisor
    }

    /// The first column from which on the row's divisor is at least 2 and doesn't divide the need, and one past the columns where there is none.
    pub(crate) fn first_residue(&self, row: u32, need: u64) -> u32
        requires row { row < length self.now.targets }
        ensures { IsFirstResidue (entries self.now row) need result }
    {
        let columns = self.columns() as usize;
        let mut low = 0;
        let mut place = self.divisors.heads[row as usize];
        while low <= columns {
            let link = self.divisors.links[place];
            if link.column < low {
                place = link.next;
            } else if link.divisor > 1 && need % link.divisor as u64 != 0 {
                return low as u32;
            } else {
                low = link.column.saturating_add(1);
            }
        }
        columns as u32 + 1
    }
}
