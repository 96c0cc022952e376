// Where a row has greater needs than deadlines are kept for, those of the greater ones are found by halving.
// For each row there is a list of the columns in which it has a positive entry, from the last one to the first, with what the row's entries add up to from there on.
// The deadline of a need is that of the first column in the list from which on they add up to the need.
// The lists take 8 bytes for each cell and one pass over the cells from the last column to the first, without the counter.
ghost use Rattle.std.specs.Prelude.{◌≡◌, ℕ, ◌+◌, ◌<◌, ◌≤◌, List, [], ◌∷◌, ◌++◌, length, IfOk};
ghost use Rattle.df_walk.specs.declared.Rules.TheVariants.{Plain};
ghost use Rattle.df_walk.specs.Assignments.{total};
ghost use Rattle.df_system.specs.Deadlines.{IsDeadline};
ghost use Rattle.df_system.specs.Reaches.{as_word, reached, IsReaching, AreReachingFrom};

use crate::OutOfMemory;
use crate::limits::MOST_ENTRIES;
use crate::system::System;
use std::alloc::Global;
use std::marker::Model;

/// A deadline, and the greatest need that has it, or `u32::MAX` where that is greater.
#[derive(Clone, Copy)]
pub(crate) struct Reach {
    pub(crate) due: u32,
    pub(crate) most: u32,
}

/// The deadlines of a row's needs above 0, from the last deadline to the first.
#[derive(Drop)]
pub(crate) struct Reaches {
    list: Vec<Reach>,
}

impl Model for Reaches {
    ghost use Rattle.std.specs.Prelude.{List};
    ghost use Rattle.df_system.specs.declared.reaches.Reach.{Reach};

    ghost Value = { List Reach };

    ghost view = { λ r. r.list.items };
}

impl Reaches {
    /// No deadline yet.
    fn new(alloc: Global) -> Reaches
        ensures { result ≡ [] }
    {
        Reaches {
            list: Vec::new(alloc),
        }
    }

    /// Adds a deadline, of this many needs more.
    fn add(&mut self, due: u32, value: u32) -> Result<(), OutOfMemory>
        ensures { IfOk result (λ _. self.new ≡ self.old ++ record { due = due; most = as_word (reached self.old + value) } ∷ []) }
    {
        let before = match self.list.last() {
            Some(reach) => reach.most,
            None => 0,
        };
        self.list.push(Reach {
            due,
            most: before.saturating_add(value),
        })?;
        Ok(())
    }

    /// The deadline of a need above 0.
    pub(crate) fn deadline(&self, need: u32) -> u32
        requires { 0 < need }
        ensures { (es : List ℕ) → IsReaching es (total es) self.now → IsDeadline Plain es need 0 result }
    {
        let place = self.list.partition_point(|reach| reach.most < need);
        match self.list.get(place) {
            Some(reach) => reach.due,
            None => 0,
        }
    }
}

/// Goes on with the lists of the rows that have a cell in this column. The later columns are done.
fn add_column(reaches: &mut Vec<Reaches>, system: &System, column: u32) -> Result<(), OutOfMemory>
    requires column { column < length system.now.columns }
    requires few { length system.now.columns ≤ MOST_ENTRIES }
    requires reaching { AreReachingFrom system.now (column + 1) reaches.old.items }
    ensures { IfOk result (λ _. AreReachingFrom system.now column reaches.new.items) }
{
    for cell in system.column(column) {
        reaches[cell.row as usize].add(column + 1, cell.value)?;
    }
    Ok(())
}

/// The lists of all rows.
pub(crate) fn row_reaches(alloc: Global, system: &System) -> Result<Vec<Reaches>, OutOfMemory>
    ensures { IfOk result (λ v. AreReachingFrom system.now 0 v.items) }
{
    let rows = system.rows() as usize;
    let mut reaches = Vec::with_capacity(alloc, rows)?;
    for _ in 0..rows {
        reaches.push(Reaches::new(alloc))?;
    }
    let mut column = system.columns();
    while column > 0 {
        column -= 1;
        add_column(&mut reaches, system, column)?;
    }
    Ok(reaches)
}
