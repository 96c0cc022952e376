ghost use Rattle.std.specs.Prelude.{◌≡◌, ℕ, ◌≤◌, ◌<◌, length, true};
ghost use Rattle.df_walk.specs.Systems.{entry, target};
ghost use Rattle.df_runs.specs.WeightedSums.{IsBounded};
ghost use Rattle.df_system.specs.declared.limits.TheConstants.{MOST_COLUMNS};
ghost use Rattle.df_check.specs.declared.TheConstants.{MOST_VALUE};

mod chains;
mod design_logs;
mod fault_texts;
mod random_designs;
mod random_logs;
mod worked_logs;

use crate::{CutRow, Entry, Fed, MOST_VALUE, SystemChecker};
use arrayvec::ArrayVec;
use df_steps::Steps;
use df_system::{MOST_COLUMNS, MOST_ENTRIES, ROW_LIMIT, System};
use std::alloc::Global;
use std::sync::ledger::Ledger;

/// Whether no entry of a column is too great.
fn is_low<L: Ledger>(system: &System, column: u32, steps: &mut Steps<L>) -> bool
    requires { column < length system.now.columns }
    ensures { result ≡ true → (row : ℕ) → row < length system.now.targets → entry system.now row column ≤ MOST_VALUE }
{
    for row in 0..system.rows() {
        if system.entry(row, column, steps) > MOST_VALUE {
            return false;
        }
    }
    true
}

/// Whether no target is too great.
fn are_targets_low(system: &System) -> bool
    ensures { result ≡ true → (row : ℕ) → row < length system.now.targets → target system.now row ≤ MOST_VALUE }
{
    for row in 0..system.rows() {
        if system.target(row) > MOST_VALUE {
            return false;
        }
    }
    true
}

/// Whether no entry is too great.
fn are_entries_low<L: Ledger>(system: &System, steps: &mut Steps<L>) -> bool
    ensures { result ≡ true → (row column : ℕ) → column < length system.now.columns → row < length system.now.targets → entry system.now row column ≤ MOST_VALUE }
{
    for column in 0..system.columns() {
        if !is_low(system, column, steps) {
            return false;
        }
    }
    true
}

/// Whether a system may be checked.
fn is_bounded<L: Ledger>(system: &System, steps: &mut Steps<L>) -> bool
    ensures { result ≡ true → IsBounded system.now MOST_COLUMNS MOST_VALUE MOST_VALUE }
{
    if system.columns() as usize > MOST_COLUMNS {
        return false;
    }
    if !are_targets_low(system) {
        return false;
    }
    are_entries_low(system, steps)
}

/// A line of a log.
#[derive(Clone, Copy)]
enum Line<'s> {
    Branch(u32),
    Over(u32),
    Under(u32),
    Settled,
    Residue(u32, u32),
    Cut(&'s [CutRow]),
    Leaf(&'s [u32]),
}

/// The entry of a cut, of at most 16 rows.
fn cut(rows: &[CutRow]) -> Entry {
    let mut kept = ArrayVec::new();
    for row in rows {
        if !kept.is_full() {
            kept.push(*row);
        }
    }
    Entry::Cut(kept)
}

/// What a checker answers to a line.
fn feed(checker: &mut SystemChecker<'_>, line: Line<'_>) -> Fed {
    match line {
        Line::Branch(column) => checker.feed(Entry::Branch(column)),
        Line::Over(row) => checker.feed(Entry::Over(row)),
        Line::Under(row) => checker.feed(Entry::Under(row)),
        Line::Settled => checker.feed(Entry::Settled),
        Line::Residue(row, divisor) => checker.feed(Entry::Residue { row, divisor }),
        Line::Cut(rows) => checker.feed(cut(rows)),
        Line::Leaf(columns) => checker.feed_leaf(columns),
    }
}

/// A system of these entries, column after column.
fn system_of(alloc: Global, targets: &[u32], entries: &[u32]) -> Option<System> {
    let targets = Vec::from_slice(alloc, targets).ok()?;
    let entries = Vec::from_slice(alloc, entries).ok()?;
    if targets.is_empty()
        || targets.len() >= ROW_LIMIT
        || entries.len() % targets.len() != 0
        || entries.len() > MOST_ENTRIES
    {
        return None;
    }
    System::new(alloc, targets, entries).ok()
}
