// A system's columns differ in the number of their cells, so they stand one after another in one list, with the place at which each begins.
// That takes 8 bytes for a cell and 4 for a column, and a decision reads the cells of its column alone.
ghost use Rattle.std.specs.Prelude.{◌≡◌, ◌+◌, ◌<◌, ◌≤◌, [], ◌∷◌, ◌++◌, length, take, IfOk, IfErr};
ghost use Rattle.df_system.specs.Storage.{positive_cells, cell_count};

use crate::OutOfMemory;
use crate::limits::{MOST_ENTRIES, ROW_LIMIT};
use df_walk::Cell;
use std::alloc::{AllocError, Global};
use std::marker::Model;

/// The columns of a system that is being made, each with its cells: its positive entries by their rows.
/// Contracts see the list of columns so far.
#[derive(Drop)]
pub struct Columns {
    // where each column begins among the cells, and last their number
    pub(crate) starts: Vec<u32>,
    pub(crate) cells: Vec<Cell>,
}

impl Model for Columns {
    ghost use Rattle.std.specs.Prelude.{List};
    ghost use Rattle.df_walk.specs.declared.Cell.{Cell};
    ghost use Rattle.df_system.specs.Storage.{AreMade, columns_of};

    ghost Value = { List (List Cell) };

    ghost view = { λ c. columns_of c.starts.items c.cells.items };

    ghost invariant = { λ c. AreMade c.starts.items c.cells.items };
}

/// Appends the positive ones of a column's entries, each with its row.
fn push_positive(cells: &mut Vec<Cell>, entries: &[u32]) -> Result<(), AllocError>
    requires { length entries.now < ROW_LIMIT }
    ensures all { IfOk result (λ _. cells.new.items ≡ cells.old.items ++ positive_cells 0 entries.now) }
    ensures front { IfErr result (λ _. take (length cells.old.items) cells.new.items ≡ cells.old.items) }
{
    for (row, value) in entries.iter().enumerate() {
        if *value > 0 {
            cells.push(Cell {
                row: row as u32,
                value: *value,
            })?;
        }
    }
    Ok(())
}

impl Columns {
    /// No column yet, and room for this many columns and cells. More may come.
    pub fn with_capacity(
        alloc: Global,
        columns: usize,
        cells: usize,
    ) -> Result<Columns, OutOfMemory>
        ensures { IfOk result (λ c. c ≡ []) }
    {
        let mut starts = Vec::with_capacity(alloc, columns.saturating_add(1))?;
        let cells = Vec::with_capacity(alloc, cells)?;
        starts.push(0)?;
        Ok(Columns { starts, cells })
    }

    /// Appends a column of these cells. Out of memory the columns stay as they are.
    pub fn push(&mut self, column: &[Cell]) -> Result<(), OutOfMemory>
        requires few { cell_count self.old + length column.now ≤ MOST_ENTRIES }
        ensures pushed { IfOk result (λ _. self.new ≡ self.old ++ column.now ∷ []) }
        ensures kept { IfErr result (λ _. self.new ≡ self.old) }
    {
        self.starts.reserve(1)?;
        self.cells.extend_from_slice(column)?;
        let end = self.cells.len();
        self.starts.push(end as u32)?;
        Ok(())
    }

    /// Appends the column of the positive ones of these entries, of which each row has one. Out of memory the columns stay as they are.
    pub fn push_entries(&mut self, entries: &[u32]) -> Result<(), OutOfMemory>
        requires rows { length entries.now < ROW_LIMIT }
        requires few { cell_count self.old + length entries.now ≤ MOST_ENTRIES }
        ensures pushed { IfOk result (λ _. self.new ≡ self.old ++ positive_cells 0 entries.now ∷ []) }
        ensures kept { IfErr result (λ _. self.new ≡ self.old) }
    {
        self.starts.reserve(1)?;
        let start = self.cells.len();
        if let Err(error) = push_positive(&mut self.cells, entries) {
            self.cells.truncate(start);
            return Err(error);
        }
        let end = self.cells.len();
        self.starts.push(end as u32)?;
        Ok(())
    }
}
