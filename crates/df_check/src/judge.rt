// Whether an entry of a log holds of the decisions of a partial assignment, and the fault where it
// doesn't.
// Needs and caps are kept with the assignment, so a branch, an `over` and an `under` look at one
// number or two.
// The row of an entry that isn't settled, and the column of a residue that fails, are looked for in
// order.
ghost use Rattle.std.specs.Prelude.{◌≡◌, ◌^◌, ◌<◌, ◌≤◌, length, pos, ◌+ℤ◌, ◌-ℤ◌, ◌≤ℤ◌, IfSome};
ghost use Rattle.df_walk.specs.Systems.{entries};
ghost use Rattle.df_walk.specs.Assignments.{need, taken, is_multiple, leaves_rest};
ghost use Rattle.df_runs.specs.WeightedSums.{IsBounded};
ghost use Rattle.df_system.specs.declared.limits.TheConstants.{MOST_COLUMNS};
ghost use Rattle.df_check.specs.Entries.{entry_fault, least_unmet, spoils, first_spoiling, column_or_none, are_rows, cut_fault};
ghost use Rattle.df_check.specs.declared.TheConstants.{MOST_VALUE};

use crate::LogFault;
use crate::cuts::{CUT_ROWS, weight_range, weighted_need};
use df_steps::Steps;
use df_system::{Partial, System};
use df_walk::{CutRow, Entry};
use std::sync::ledger::Ledger;

/// The fault of a branch.
fn branch_fault(system: &System, partial: &Partial<'_>, column: u32) -> Option<LogFault>
    requires system { partial.now.system ≡ system.now }
    requires long { length partial.now.decisions ≡ length system.now.columns }
    ensures { result ≡ entry_fault system.now partial.now.decisions (Entry.Branch column) }
{
    if column >= system.columns() {
        return Some(LogFault::ColumnRange);
    }
    match partial.decided(column) {
        Some(_) => Some(LogFault::ColumnDecided),
        None => None,
    }
}

/// The least row whose need isn't 0.
fn least_unmet(partial: &Partial<'_>, rows: u32) -> Option<u32>
    requires { rows ≡ length partial.now.system.targets }
    ensures row { IfSome result (λ row. row < rows) }
    ensures value { result ≡ least_unmet partial.now.system partial.now.decisions }
{
    if partial.settled() {
        return None;
    }
    for row in 0..rows {
        if partial.need(row) != 0 {
            return Some(row);
        }
    }
    None
}

/// The fault of a settled entry.
fn settled_fault(system: &System, partial: &Partial<'_>) -> Option<LogFault>
    requires { partial.now.system ≡ system.now }
    ensures { result ≡ entry_fault system.now partial.now.decisions Entry.Settled }
{
    match least_unmet(partial, system.rows()) {
        Some(row) => Some(LogFault::NotSettled {
            row,
            need: partial.need(row),
        }),
        None => None,
    }
}

/// Whether a number is a multiple of m.
fn is_multiple(m: u32, number: u32) -> bool
    ensures { result ≡ is_multiple m number }
{
    if m == 0 { number == 0 } else { number % m == 0 }
}

/// Whether a column is undecided, and its entry in the row isn't a multiple of m.
fn spoils<L: Ledger>(
    system: &System,
    partial: &Partial<'_>,
    m: u32,
    row: u32,
    column: u32,
    steps: &mut Steps<L>,
) -> bool
    requires system { partial.now.system ≡ system.now }
    requires row { row < length system.now.targets }
    requires column { column < length system.now.columns }
    ensures { result ≡ spoils system.now partial.now.decisions m row column }
{
    match partial.decided(column) {
        Some(_) => false,
        None => !is_multiple(m, system.entry(row, column, steps)),
    }
}

/// The first column that spoils a residue.
fn first_spoiling<L: Ledger>(
    system: &System,
    partial: &Partial<'_>,
    m: u32,
    row: u32,
    steps: &mut Steps<L>,
) -> Option<u32>
    requires system { partial.now.system ≡ system.now }
    requires row { row < length system.now.targets }
    ensures { result ≡ first_spoiling system.now partial.now.decisions m row }
{
    for column in 0..system.columns() {
        if spoils(system, partial, m, row, column, steps) {
            return Some(column);
        }
    }
    None
}

/// What a target has more than a need.
fn target_less(target: u32, need: i64) -> u64
    requires low { need ≤ℤ pos target }
    requires high { pos target ≤ℤ (need +ℤ pos (2 ^ 60)) }
    ensures { pos result ≡ pos target -ℤ need }
{
    (target as i64 - need) as u64
}

/// What the yes columns take of a row: its target less its need.
fn taken(system: &System, partial: &Partial<'_>, row: u32) -> u64
    requires system { partial.now.system ≡ system.now }
    requires bounded { IsBounded system.now MOST_COLUMNS MOST_VALUE MOST_VALUE }
    requires row { row < length system.now.targets }
    ensures { result ≡ taken (entries system.now row) partial.now.decisions }
{
    target_less(system.target(row), partial.need(row))
}

/// Whether the need of a row isn't a multiple of m.
fn leaves_rest(system: &System, partial: &Partial<'_>, m: u32, row: u32) -> bool
    requires system { partial.now.system ≡ system.now }
    requires bounded { IsBounded system.now MOST_COLUMNS MOST_VALUE MOST_VALUE }
    requires row { row < length system.now.targets }
    requires some { 0 < m }
    ensures { result ≡ leaves_rest system.now partial.now.decisions m row }
{
    system.target(row) as u64 % m as u64 != taken(system, partial, row) % m as u64
}

/// The fault of an `over`.
fn over_fault(system: &System, partial: &Partial<'_>, row: u32) -> Option<LogFault>
    requires { partial.now.system ≡ system.now }
    ensures { result ≡ entry_fault system.now partial.now.decisions (Entry.Over row) }
{
    if row >= system.rows() {
        return Some(LogFault::RowRange);
    }
    let need = partial.need(row);
    if need < 0 {
        None
    } else {
        Some(LogFault::NotOver { need })
    }
}

/// The fault of an `under`.
fn under_fault(system: &System, partial: &Partial<'_>, row: u32) -> Option<LogFault>
    requires { partial.now.system ≡ system.now }
    ensures { result ≡ entry_fault system.now partial.now.decisions (Entry.Under row) }
{
    if row >= system.rows() {
        return Some(LogFault::RowRange);
    }
    let need = partial.need(row);
    let cap = partial.cap(row);
    if cap < need {
        None
    } else {
        Some(LogFault::NotUnder { need, cap })
    }
}

/// The fault of a residue that doesn't hold, with the first column that spoils it.
fn not_residue(partial: &Partial<'_>, row: u32, column: Option<u32>) -> LogFault
    requires { row < length partial.now.system.targets }
    ensures { result ≡ LogFault.NotResidue (need partial.now.system partial.now.decisions row) (column_or_none column) }
{
    let need = partial.need(row);
    match column {
        Some(column) => LogFault::NotResidue {
            need,
            column: column as i64,
        },
        None => LogFault::NotResidue { need, column: -1 },
    }
}

/// The fault of a residue.
fn residue_fault<L: Ledger>(
    system: &System,
    partial: &Partial<'_>,
    row: u32,
    divisor: u32,
    steps: &mut Steps<L>,
) -> Option<LogFault>
    requires system { partial.now.system ≡ system.now }
    requires bounded { IsBounded system.now MOST_COLUMNS MOST_VALUE MOST_VALUE }
    ensures { result ≡ entry_fault system.now partial.now.decisions (Entry.Residue row divisor) }
{
    if row >= system.rows() {
        return Some(LogFault::RowRange);
    }
    let column = first_spoiling(system, partial, divisor, row, steps);
    if column.is_some() {
        return Some(not_residue(partial, row, column));
    }
    if divisor < 2 {
        return Some(not_residue(partial, row, column));
    }
    if leaves_rest(system, partial, divisor, row) {
        None
    } else {
        Some(not_residue(partial, row, column))
    }
}

/// Whether each row of a cut is there.
fn are_rows(system: &System, rows: &[CutRow]) -> bool
    ensures { result ≡ are_rows system.now rows.now }
{
    let count = system.rows();
    rows.iter().all(|row| row.row < count)
}

/// The fault of a cut.
fn cut_fault<L: Ledger>(
    system: &System,
    partial: &Partial<'_>,
    rows: &[CutRow],
    steps: &mut Steps<L>,
) -> Option<LogFault>
    requires system { partial.now.system ≡ system.now }
    requires bounded { IsBounded system.now MOST_COLUMNS MOST_VALUE MOST_VALUE }
    requires few { length rows.now ≤ CUT_ROWS }
    requires long { length partial.now.decisions ≡ length system.now.columns }
    ensures { result ≡ cut_fault system.now partial.now.decisions rows.now }
{
    if !are_rows(system, rows) {
        return Some(LogFault::RowRange);
    }
    let need = weighted_need(system, partial, rows);
    let (least, greatest) = weight_range(system, partial, rows, steps);
    if need < least || greatest < need {
        None
    } else {
        Some(LogFault::NotCut { least, greatest })
    }
}

/// The fault of an entry, if it has one.
pub(crate) fn entry_fault<L: Ledger>(
    system: &System,
    partial: &Partial<'_>,
    entry: &Entry,
    steps: &mut Steps<L>,
) -> Option<LogFault>
    requires system { partial.now.system ≡ system.now }
    requires bounded { IsBounded system.now MOST_COLUMNS MOST_VALUE MOST_VALUE }
    requires long { length partial.now.decisions ≡ length system.now.columns }
    ensures { result ≡ entry_fault system.now partial.now.decisions entry.now }
{
    match entry {
        Entry::Branch(column) => branch_fault(system, partial, *column),
        Entry::Over(row) => over_fault(system, partial, *row),
        Entry::Under(row) => under_fault(system, partial, *row),
        Entry::Settled => settled_fault(system, partial),
        Entry::Residue { row, divisor } => residue_fault(system, partial, *row, *divisor, steps),
        Entry::Cut(rows) => cut_fault(system, partial, rows, steps),
    }
}
