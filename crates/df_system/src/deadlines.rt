// For each row and each small need the first column from which on the row can't meet the need any more: its deadline.
// A path of further no's keeps its needs, so it is ruled out exactly from the least of its rows' deadlines on.
// Those of small needs stand in a table, which is made in one pass over the cells from the last column to the first: a cell of value v brings its row the deadlines of the v needs above what the later cells add up to.
// The table has no more places than twice the cells, and none for needs that no row has or can meet, so that making it takes no more than a few times as long as reading all cells. Greater needs have their deadlines by halving (`reaches`).
// By the divisor's rules a deadline may come earlier, at one of the at most 32 columns at which the row's divisor changes.
// They are made from the entries without the counter, as divisors are: no decision needs them but to do less.
ghost use Rattle.std.specs.Prelude.{◌≡◌, ◌+◌, ◌*◌, ◌<◌, ◌≤◌, length, min, slice_index, slice_set, IfOk};
ghost use Rattle.df_walk.specs.declared.Rules.TheVariants.{Plain};
ghost use Rattle.df_walk.specs.Systems.{entries, target};
ghost use Rattle.df_system.specs.Deadlines.{IsDeadline, AreDeadlines, AreAllDeadlines, AreFirst, IsFilled, AreReached, AreRuled};
ghost use Rattle.df_system.specs.Reaches.{AreTotals, IsGreatestNeed, AreFar};

use crate::OutOfMemory;
use crate::limits::{MOST_ENTRIES, ROW_LIMIT};
use crate::reaches::{Reaches, row_reaches};
use crate::system::System;
use df_walk::{Cell, Rules};
use std::alloc::Global;

/// At most so many deadlines are kept, unless there are more rows: each row has that of need 0.
pub const MOST_DEADLINES: usize = 1_048_576;

/// And at most so many for each cell, with the same exception.
pub const DEADLINES_A_CELL: usize = 2;

/// The deadlines of each row's needs below the width, a row's one after another.
#[derive(Drop)]
pub(crate) struct Deadlines {
    pub(crate) width: usize,
    // by the caps alone
    pub(crate) shorts: Vec<u32>,
    // by the rules of the run
    pub(crate) dues: Vec<u32>,
    // by the caps alone, for each row those of all its needs, where some row can meet a need from the width on
    pub(crate) far: Vec<Reaches>,
}

/// What each row's entries add up to, or `u32::MAX` where that is more.
fn row_totals(alloc: Global, system: &System) -> Result<Vec<u32>, OutOfMemory>
    ensures { IfOk result (λ v. AreTotals system.now v.items) }
{
    let mut totals = vec![in alloc; 0u32; system.rows() as usize]?;
    for cell in system.all_cells() {
        let row = cell.row as usize;
        totals[row] = totals[row].saturating_add(cell.value);
    }
    Ok(totals)
}

/// A need that is at least as great as any that a row has and can meet.
fn greatest_need(system: &System, totals: &[u32]) -> u32
    requires { AreTotals system.now totals.now }
    ensures { IsGreatestNeed system.now result }
{
    let mut most = 0;
    for row in 0..system.rows() {
        most = most.max(system.target(row).min(totals[row as usize]));
    }
    most
}

/// For how many needs of each row, from 0 on, the deadlines are kept in the table, where no row can meet a greater need than `most`.
fn kept_needs(system: &System, most: u32) -> usize
    ensures some { 0 < result }
    ensures few { result ≤ MOST_DEADLINES }
{
    let rows = system.rows() as usize;
    let room = (DEADLINES_A_CELL * system.all_cells().len()).min(MOST_DEADLINES);
    let each = if rows == 0 { 1 } else { room / rows };
    (most as usize + 1).min(each).max(1)
}

/// The lists for the needs from the width on, where no row can meet a greater need than `most`.
fn far_reaches(
    alloc: Global,
    system: &System,
    width: usize,
    most: u32,
) -> Result<Vec<Reaches>, OutOfMemory>
    requires { IsGreatestNeed system.now most }
    ensures { IfOk result (λ v. AreFar system.now width v.items) }
{
    if (most as usize) < width {
        Ok(Vec::new(alloc))
    } else {
        let lists = row_reaches(alloc, system)?;
        Ok(lists)
    }
}

/// The deadlines before any column counts: need 0 is always met, and no other is.
fn first_deadlines(
    alloc: Global,
    rows: usize,
    width: usize,
    columns: u32,
) -> Result<Vec<u32>, OutOfMemory>
    requires some { 0 < width }
    requires few_rows { rows < ROW_LIMIT }
    requires few { width ≤ MOST_DEADLINES }
    requires columns { columns ≤ MOST_ENTRIES }
    ensures { IfOk result (λ v. AreFirst rows width (columns + 1) v.items) }
{
    let mut deadlines = vec![in alloc; 0; rows * width]?;
    for row in 0..rows {
        deadlines[row * width] = columns + 1;
    }
    Ok(deadlines)
}

/// Sets the deadlines of the needs that a cell of a column brings in reach.
fn reach_cell(
    deadlines: &mut Vec<u32>,
    counts: &mut Vec<usize>,
    width: usize,
    cell: Cell,
    column: u32,
)
    requires column { column < MOST_ENTRIES }
    requires row { cell.row < length counts.old.items }
    requires within { slice_index counts.old.items cell.row ≤ width }
    requires long { length deadlines.old.items ≡ length counts.old.items * width }
    ensures counts { counts.new.items ≡ slice_set counts.old.items cell.row (min (slice_index counts.old.items cell.row + cell.value) width) }
    ensures long { length deadlines.new.items ≡ length deadlines.old.items }
    ensures set { IsFilled deadlines.old.items deadlines.new.items (cell.row * width + slice_index counts.old.items cell.row) (cell.row * width + min (slice_index counts.old.items cell.row + cell.value) width) (column + 1) }
{
    let row = cell.row as usize;
    let start = counts[row];
    let reached = start + cell.value as usize;
    let end = if reached < width { reached } else { width };
    for need in start..end {
        deadlines[row * width + need] = column + 1;
    }
    counts[row] = end;
}

/// Goes on with the deadlines of the rows that have a cell in this column. The later columns are done.
fn reach_column(
    deadlines: &mut Vec<u32>,
    counts: &mut Vec<usize>,
    system: &System,
    width: usize,
    column: u32,
)
    requires column { column < length system.now.columns }
    requires few { length system.now.columns ≤ MOST_ENTRIES }
    requires reached { AreReached system.now width (column + 1) counts.old.items deadlines.old.items }
    ensures { AreReached system.now width column counts.new.items deadlines.new.items }
{
    for cell in system.column(column) {
        reach_cell(deadlines, counts, width, *cell, column);
    }
}

/// The deadlines by the caps alone.
fn short_deadlines(alloc: Global, system: &System, width: usize) -> Result<Vec<u32>, OutOfMemory>
    requires some { 0 < width }
    requires few { width ≤ MOST_DEADLINES }
    ensures { IfOk result (λ v. AreDeadlines system.now Plain width v.items) }
{
    let rows = system.rows() as usize;
    let mut column = system.columns();
    let mut deadlines = first_deadlines(alloc, rows, width, column)?;
    let mut counts = vec![in alloc; 1; rows]?;
    while column > 0 {
        column -= 1;
        reach_column(&mut deadlines, &mut counts, system, width, column);
    }
    Ok(deadlines)
}

/// The deadline of a need by the rules, where that by the caps is known.
fn ruled_deadline(system: &System, rules: Rules, row: u32, need: u64, short: u32) -> u32
    requires row { row < length system.now.targets }
    requires short { IsDeadline Plain (entries system.now row) need 0 short }
    ensures { IsDeadline rules (entries system.now row) need 0 result }
{
    match rules {
        Rules::Plain => short,
        Rules::Divisor => {
            let residue = system.first_residue(row, need);
            if residue < short { residue } else { short }
        }
    }
}

/// Appends the deadlines of a row by the rules.
fn push_ruled(
    dues: &mut Vec<u32>,
    system: &System,
    rules: Rules,
    width: usize,
    row: u32,
    shorts: &[u32],
) -> Result<(), OutOfMemory>
    requires row { row < length system.now.targets }
    requires shorts { AreDeadlines system.now Plain width shorts.now }
    requires dues { AreRuled system.now rules width row dues.old.items }
    ensures { IfOk result (λ _. AreRuled system.now rules width (row + 1) dues.new.items) }
{
    for need in 0..width {
        let short = shorts[row as usize * width + need];
        dues.push(ruled_deadline(system, rules, row, need as u64, short))?;
    }
    Ok(())
}

/// The deadlines by the rules.
fn ruled_deadlines(
    alloc: Global,
    system: &System,
    rules: Rules,
    width: usize,
    shorts: &[u32],
) -> Result<Vec<u32>, OutOfMemory>
    requires { AreDeadlines system.now Plain width shorts.now }
    ensures { IfOk result (λ v. AreDeadlines system.now rules width v.items) }
{
    let mut dues = Vec::with_capacity(alloc, shorts.len())?;
    for row in 0..system.rows() {
        push_ruled(&mut dues, system, rules, width, row, shorts)?;
    }
    Ok(dues)
}

impl Deadlines {
    /// The deadlines of a system by these rules.
    pub(crate) fn new(
        alloc: Global,
        system: &System,
        rules: Rules,
    ) -> Result<Deadlines, OutOfMemory>
        ensures { IfOk result (λ d. AreAllDeadlines system.now rules d.width d.shorts.items d.dues.items d.far.items) }
    {
        let totals = row_totals(alloc, system)?;
        let most = greatest_need(system, &totals);
        let width = kept_needs(system, most);
        let shorts = short_deadlines(alloc, system, width)?;
        let dues = ruled_deadlines(alloc, system, rules, width, &shorts)?;
        let far = far_reaches(alloc, system, width, most)?;
        Ok(Deadlines {
            width,
            shorts,
            dues,
            far,
        })
    }

    /// The deadline by the caps alone of a need that has none in the table.
    fn far(&self, system: &System, row: u32, need: u32) -> u32
        requires row { row < length system.now.targets }
        requires need { need ≤ target system.now row }
        requires wide { self.now.width ≤ need }
        requires some { 0 < self.now.width }
        requires far { AreFar system.now self.now.width self.now.far.items }
        ensures { IsDeadline Plain (entries system.now row) need 0 result }
    {
        match self.far.get(row as usize) {
            Some(reaches) => reaches.deadline(need),
            None => 0,
        }
    }

    /// The deadline of a row's need by the caps alone.
    pub(crate) fn short(&self, system: &System, rules: Rules, row: u32, need: u32) -> u32
        requires row { row < length system.now.targets }
        requires need { need ≤ target system.now row }
        requires deadlines { AreAllDeadlines system.now rules self.now.width self.now.shorts.items self.now.dues.items self.now.far.items }
        ensures { IsDeadline Plain (entries system.now row) need 0 result }
    {
        if (need as usize) < self.width {
            self.shorts[row as usize * self.width + need as usize]
        } else {
            self.far(system, row, need)
        }
    }

    /// The deadline of a row's need by the rules.
    pub(crate) fn due(&self, system: &System, rules: Rules, row: u32, need: u32) -> u32
        requires row { row < length system.now.targets }
        requires need { need ≤ target system.now row }
        requires deadlines { AreAllDeadlines system.now rules self.now.width self.now.shorts.items self.now.dues.items self.now.far.items }
        ensures { IsDeadline rules (entries system.now row) need 0 result }
    {
        if (need as usize) < self.width {
            self.dues[row as usize * self.width + need as usize]
        } else {
            let short = self.far(system, row, need);
            ruled_deadline(system, rules, row, need as u64, short)
        }
    }
}
