// The sums of a cut. They go from the last row and the last column to the first, so that what is
// summed is always the sum of those passed, in the words of the definition.
// A weight is at most 32,768 in absolute value, a row's entries and target at most 8,000,000, and
// there are at most 16 rows and 65,536 columns, so each sum is far below 2 to the power of 63.
ghost use Rattle.std.specs.Prelude.{◌≡◌, ◌*◌, ◌<◌, ◌≤◌, length, pos, ◌*ℤ◌, unsigned_abs, true};
ghost use Rattle.std.specs.Int.{int_min, int_max};
ghost use Rattle.df_walk.specs.Systems.{entry_of, cells};
ghost use Rattle.df_walk.specs.Assignments.{need};
ghost use Rattle.df_walk.specs.Cuts.{weighted_need, weight_of, least_weight, greatest_weight};
ghost use Rattle.df_runs.specs.WeightedSums.{IsBounded};
ghost use Rattle.df_system.specs.declared.limits.TheConstants.{MOST_COLUMNS};
ghost use Rattle.df_check.specs.Entries.{are_rows};
ghost use Rattle.df_check.specs.declared.TheConstants.{MOST_VALUE};

use df_steps::Steps;
use df_system::{Partial, System};
use df_walk::CutRow;
use std::sync::ledger::Ledger;

/// The most rows that a cut has.
pub(crate) const CUT_ROWS: usize = 16;

/// No weight of a row of a cut is above this in absolute value.
pub(crate) const HEAVIEST: u64 = 32_768;

/// No need is above this in absolute value: a target and an entry of each column.
pub(crate) const MOST_NEED: u64 = 524_296_000_000;

/// The weight of a row, of which the bound is told.
fn small_weight(row: CutRow) -> i64
    ensures value { result ≡ row.weight }
    ensures small { unsigned_abs result ≤ HEAVIEST }
{
    row.weight as i64
}

/// A weight times a need or an entry.
fn weighted(weight: i64, value: i64) -> i64
    requires weight { unsigned_abs weight ≤ HEAVIEST }
    requires value { unsigned_abs value ≤ MOST_NEED }
    ensures value { result ≡ weight *ℤ value }
    ensures small { unsigned_abs result ≤ HEAVIEST * unsigned_abs value }
{
    weight * value
}

/// A need, of which the bound is told.
fn small_need(system: &System, partial: &Partial<'_>, row: u32) -> i64
    requires system { partial.now.system ≡ system.now }
    requires bounded { IsBounded system.now MOST_COLUMNS MOST_VALUE MOST_VALUE }
    requires row { row < length system.now.targets }
    ensures value { result ≡ need system.now partial.now.decisions row }
    ensures small { unsigned_abs result ≤ MOST_NEED }
{
    partial.need(row)
}

/// An entry, of which the bound is told.
fn small_entry<L: Ledger>(system: &System, row: u32, column: u32, steps: &mut Steps<L>) -> i64
    requires bounded { IsBounded system.now MOST_COLUMNS MOST_VALUE MOST_VALUE }
    requires row { row < length system.now.targets }
    requires column { column < length system.now.columns }
    ensures value { result ≡ pos (entry_of (cells system.now column) row) }
    ensures small { unsigned_abs result ≤ MOST_VALUE }
{
    system.entry(row, column, steps) as i64
}

/// The weighted needs of rows, added up.
pub(crate) fn weighted_need(system: &System, partial: &Partial<'_>, rows: &[CutRow]) -> i64
    requires system { partial.now.system ≡ system.now }
    requires bounded { IsBounded system.now MOST_COLUMNS MOST_VALUE MOST_VALUE }
    requires rows { are_rows system.now rows.now ≡ true }
    requires few { length rows.now ≤ CUT_ROWS }
    ensures { result ≡ weighted_need system.now partial.now.decisions rows.now }
{
    let mut sum: i64 = 0;
    let mut place = rows.len();
    while place > 0 {
        place -= 1;
        let row = rows[place];
        sum += weighted(small_weight(row), small_need(system, partial, row.row));
    }
    sum
}

/// The weight of a column: its weighted entries, added up.
fn weight_of<L: Ledger>(system: &System, rows: &[CutRow], column: u32, steps: &mut Steps<L>) -> i64
    requires bounded { IsBounded system.now MOST_COLUMNS MOST_VALUE MOST_VALUE }
    requires rows { are_rows system.now rows.now ≡ true }
    requires few { length rows.now ≤ CUT_ROWS }
    requires column { column < length system.now.columns }
    ensures value { result ≡ weight_of rows.now (cells system.now column) }
    ensures small { unsigned_abs result ≤ CUT_ROWS * (HEAVIEST * MOST_VALUE) }
{
    let mut sum: i64 = 0;
    let mut place = rows.len();
    while place > 0 {
        place -= 1;
        let row = rows[place];
        sum += weighted(
            small_weight(row),
            small_entry(system, row.row, column, steps),
        );
    }
    sum
}

/// The less of a number and 0.
fn below_zero(number: i64) -> i64
    ensures value { result ≡ int_min number (pos 0) }
    ensures small { unsigned_abs result ≤ unsigned_abs number }
{
    if number > 0 { 0 } else { number }
}

/// The greater of a number and 0.
fn above_zero(number: i64) -> i64
    ensures value { result ≡ int_max number (pos 0) }
    ensures small { unsigned_abs result ≤ unsigned_abs number }
{
    if number > 0 { number } else { 0 }
}

/// The least and the greatest sum that undecided columns can give.
pub(crate) fn weight_range<L: Ledger>(
    system: &System,
    partial: &Partial<'_>,
    rows: &[CutRow],
    steps: &mut Steps<L>,
) -> (i64, i64)
    requires system { partial.now.system ≡ system.now }
    requires bounded { IsBounded system.now MOST_COLUMNS MOST_VALUE MOST_VALUE }
    requires rows { are_rows system.now rows.now ≡ true }
    requires few { length rows.now ≤ CUT_ROWS }
    requires long { length partial.now.decisions ≡ length system.now.columns }
    ensures least { result.0 ≡ least_weight system.now partial.now.decisions rows.now }
    ensures greatest { result.1 ≡ greatest_weight system.now partial.now.decisions rows.now }
{
    let mut least: i64 = 0;
    let mut greatest: i64 = 0;
    let mut column = system.columns();
    while column > 0 {
        column -= 1;
        if partial.decided(column).is_none() {
            let weight = weight_of(system, rows, column, steps);
            least += below_zero(weight);
            greatest += above_zero(weight);
        }
    }
    (least, greatest)
}
