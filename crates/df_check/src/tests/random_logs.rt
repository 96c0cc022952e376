// Logs that look random, of small systems, line by line against a plain judge of the definitions.
ghost use Rattle.std.specs.Prelude.{◌≡◌, ◌<◌};

use crate::tests::{Line, feed, is_bounded, system_of};
use crate::{CutRow, Fed, LogFault, SystemChecker};
use arrayvec::ArrayVec;
use df_steps::Steps;
use std::alloc::Global;
use std::marker::Brand;
use std::process::Abort;
use std::sync::ledger::{Blank, Ledger};

pub(super) const ROWS: usize = 3;

pub(super) const COLUMNS: usize = 4;

/// Plain numbers that look random.
#[derive(Drop)]
pub(super) struct Numbers {
    pub(super) state: u64,
}

impl Numbers {
    pub(super) fn next(&mut self, below: u32) -> u32
        requires { 0 < below }
        ensures { result < below }
    {
        self.state = self
            .state
            .wrapping_mul(6364136223846793005)
            .wrapping_add(1442695040888963407);
        (self.state / 8589934592) as u32 % below
    }
}

/// A decision for each column.
pub(super) type Decisions = [Option<bool>; COLUMNS];

/// A system, each column's entries after those before it.
#[derive(Clone, Copy)]
pub(super) struct Plain {
    pub(super) targets: [u32; ROWS],
    pub(super) entries: [u32; ROWS * COLUMNS],
}

impl Plain {
    fn entry(&self, row: usize, column: usize) -> i64 {
        let place = column.wrapping_mul(ROWS).wrapping_add(row);
        self.entries.get(place).copied().unwrap_or(0) as i64
    }

    fn need(&self, decisions: &Decisions, row: usize) -> i64 {
        let mut need = self.targets.get(row).copied().unwrap_or(0) as i64;
        for column in 0..COLUMNS {
            if decisions[column] == Some(true) {
                need = need.wrapping_sub(self.entry(row, column));
            }
        }
        need
    }

    fn cap(&self, decisions: &Decisions, row: usize) -> i64 {
        let mut cap: i64 = 0;
        for column in 0..COLUMNS {
            if decisions[column].is_none() {
                cap = cap.wrapping_add(self.entry(row, column));
            }
        }
        cap
    }
}

/// The rows of a cut, with small weights.
fn random_rows(numbers: &mut Numbers) -> ArrayVec<CutRow, 2> {
    let mut rows = ArrayVec::new();
    for row in 0..2u32 {
        if !rows.is_full() && numbers.next(3) > 0 {
            rows.push(CutRow {
                weight: numbers.next(7) as i16 - 3,
                row: row + numbers.next(2),
            });
        }
    }
    rows
}

/// What a cut's definition says: the weighted need, and the least and the greatest sum.
fn plain_cut(plain: &Plain, decisions: &Decisions, rows: &[CutRow]) -> (i64, i64, i64) {
    let mut need: i64 = 0;
    for row in rows {
        let part = (row.weight as i64).wrapping_mul(plain.need(decisions, row.row as usize));
        need = need.wrapping_add(part);
    }
    let mut least: i64 = 0;
    let mut greatest: i64 = 0;
    for column in 0..COLUMNS {
        let mut weight: i64 = 0;
        for row in rows {
            let entry = plain.entry(row.row as usize, column);
            weight = weight.wrapping_add((row.weight as i64).wrapping_mul(entry));
        }
        if decisions[column].is_none() {
            least = least.wrapping_add(weight.min(0));
            greatest = greatest.wrapping_add(weight.max(0));
        }
    }
    (need, least, greatest)
}

/// What is told of a row's entry by its definition.
fn row_fault(row: u32, holds: bool, fault: LogFault) -> Option<LogFault> {
    if row as usize >= ROWS {
        Some(LogFault::RowRange)
    } else if holds {
        None
    } else {
        Some(fault)
    }
}

fn branch_fault(decisions: &Decisions, column: u32) -> Option<LogFault> {
    match decisions.get(column as usize) {
        None => Some(LogFault::ColumnRange),
        Some(Some(_)) => Some(LogFault::ColumnDecided),
        Some(None) => None,
    }
}

fn settled_fault(plain: &Plain, decisions: &Decisions) -> Option<LogFault> {
    for row in 0..ROWS {
        let need = plain.need(decisions, row);
        if need != 0 {
            return Some(LogFault::NotSettled {
                row: row as u32,
                need,
            });
        }
    }
    None
}

fn residue_fault(plain: &Plain, decisions: &Decisions, row: u32, divisor: u32) -> Option<LogFault> {
    let need = plain.need(decisions, row as usize);
    let mut first: i64 = -1;
    for column in 0..COLUMNS {
        let entry = plain.entry(row as usize, column);
        let multiple = entry.wrapping_rem(divisor.max(1) as i64) == 0;
        if first < 0 && decisions[column].is_none() && !multiple {
            first = column as i64;
        }
    }
    let holds = divisor > 1 && first < 0 && need.wrapping_rem(divisor.max(1) as i64) != 0;
    row_fault(
        row,
        holds,
        LogFault::NotResidue {
            need,
            column: first,
        },
    )
}

fn cut_fault(plain: &Plain, decisions: &Decisions, rows: &[CutRow]) -> Option<LogFault> {
    if rows.iter().any(|row| row.row as usize >= ROWS) {
        return Some(LogFault::RowRange);
    }
    let (need, least, greatest) = plain_cut(plain, decisions, rows);
    if need < least || need > greatest {
        None
    } else {
        Some(LogFault::NotCut { least, greatest })
    }
}

/// The fault of an entry by its definition.
pub(super) fn plain_fault(
    plain: &Plain,
    decisions: &Decisions,
    line: Line<'_>,
) -> Option<LogFault> {
    match line {
        Line::Branch(column) => branch_fault(decisions, column),
        Line::Over(row) => {
            let need = plain.need(decisions, row as usize);
            row_fault(row, need < 0, LogFault::NotOver { need })
        }
        Line::Under(row) => {
            let need = plain.need(decisions, row as usize);
            let cap = plain.cap(decisions, row as usize);
            row_fault(row, need > cap, LogFault::NotUnder { need, cap })
        }
        Line::Settled => settled_fault(plain, decisions),
        Line::Residue(row, divisor) => residue_fault(plain, decisions, row, divisor),
        Line::Cut(rows) => cut_fault(plain, decisions, rows),
        Line::Leaf(_) => Some(LogFault::NotEntry),
    }
}

/// A line that looks random, in which columns and rows may be one too many.
fn random_line<'s>(numbers: &mut Numbers, rows: &'s [CutRow]) -> Line<'s> {
    match numbers.next(9) {
        0 => Line::Over(numbers.next(4)),
        1 => Line::Under(numbers.next(4)),
        2 => Line::Settled,
        3 => Line::Residue(numbers.next(4), 1 + numbers.next(4)),
        4 => Line::Cut(rows),
        5 => Line::Leaf(&[]),
        _ => Line::Branch(numbers.next(5)),
    }
}

/// The yes columns.
pub(super) fn yes_columns(decisions: &Decisions) -> ArrayVec<u32, COLUMNS> {
    let mut columns = ArrayVec::new();
    for column in 0..COLUMNS {
        if decisions[column] == Some(true) && !columns.is_full() {
            columns.push(column as u32);
        }
    }
    columns
}

/// With a column decided.
pub(super) fn decided(decisions: &Decisions, column: u32, yes: bool) -> Decisions {
    let mut next = *decisions;
    for place in 0..COLUMNS {
        if place == column as usize {
            next[place] = Some(yes);
        }
    }
    next
}

/// How many of the 16 vectors are solutions.
pub(super) fn count_solutions(plain: &Plain) -> u64 {
    let mut count: u64 = 0;
    for vector in 0..16u32 {
        let mut decisions = [None; COLUMNS];
        for column in 0..COLUMNS {
            decisions[column] = Some((vector >> column as u32) % 2 == 1);
        }
        if settled_fault(plain, &decisions).is_none() {
            count = count.wrapping_add(1);
        }
    }
    count
}

/// A line that holds at the decisions, where one is found soon.
fn good_line<'s>(
    plain: &Plain,
    decisions: &Decisions,
    numbers: &mut Numbers,
    rows: &'s [CutRow],
) -> Line<'s> {
    let mut line = random_line(numbers, rows);
    for _ in 0..60 {
        if plain_fault(plain, decisions, line).is_none() {
            return line;
        }
        line = random_line(numbers, rows);
    }
    line
}

/// A leaf is wanted: the right one, or now and then another. False where it was another.
fn give_leaf(
    rt: &impl Abort,
    checker: &mut SystemChecker<'_>,
    decisions: &Decisions,
    numbers: &mut Numbers,
) -> bool {
    let mut columns = yes_columns(decisions);
    if numbers.next(30) > 0 || columns.is_full() {
        assert_eq!(rt; feed(checker, Line::Leaf(&columns)), Fed::Ok);
        return true;
    }
    let place = columns.len() as i64;
    columns.push(9);
    let fault = LogFault::DesignDiffers { place };
    assert_eq!(rt; feed(checker, Line::Leaf(&columns)), Fed::Fault(fault));
    false
}

/// One log, up to its end or its first fault.
fn run_log<L: Ledger>(
    rt: &impl Abort,
    alloc: Global,
    plain: &Plain,
    numbers: &mut Numbers,
    blank: Blank,
) -> bool
    requires name { blank.name ≡ L.name }
    requires parts { blank.parts ≡ L.parts }
    requires some { 0 < blank.parts }
{
    let mut steps = Steps::<L>::new(blank);
    let Some(system) = system_of(alloc, &plain.targets, &plain.entries) else {
        return false;
    };
    let bounded = is_bounded(&system, &mut steps);
    assert!(rt; bounded);
    let mut checker = SystemChecker::new(alloc, &system).expect(rt, "memory");
    let mut wanted: Vec<Decisions> = Vec::new(alloc);
    wanted.push([None; COLUMNS]).expect(rt, "memory");
    for _ in 0..200 {
        let Some(present) = wanted.pop() else {
            assert!(rt; checker.closed());
            assert_eq!(rt; checker.leaves(), count_solutions(plain));
            return true;
        };
        assert!(rt; !checker.closed());
        let rows = random_rows(numbers);
        let line = if numbers.next(20) == 0 {
            random_line(numbers, &rows)
        } else {
            good_line(plain, &present, numbers, &rows)
        };
        if let Some(fault) = plain_fault(plain, &present, line) {
            assert_eq!(rt; feed(&mut checker, line), Fed::Fault(fault));
            assert_eq!(rt; feed(&mut checker, line), Fed::Fault(LogFault::AfterClose));
            assert!(rt; !checker.closed());
            return false;
        }
        match line {
            Line::Settled => {
                assert_eq!(rt; feed(&mut checker, line), Fed::WantsDesign);
                if !give_leaf(rt, &mut checker, &present, numbers) {
                    return false;
                }
            }
            Line::Branch(column) => {
                assert_eq!(rt; feed(&mut checker, line), Fed::Ok);
                wanted
                    .push(decided(&present, column, false))
                    .expect(rt, "memory");
                wanted
                    .push(decided(&present, column, true))
                    .expect(rt, "memory");
            }
            _ => assert_eq!(rt; feed(&mut checker, line), Fed::Ok),
        }
    }
    false
}

#[test]
fn logs_are_judged_by_the_definitions(rt: HostRuntime) {
    let alloc = rt.alloc();
    let mut numbers = Numbers { state: 11 };
    let mut closed: u64 = 0;
    for _ in 0..1500u32 {
        let mut plain = Plain {
            targets: [0; ROWS],
            entries: [0; ROWS * COLUMNS],
        };
        for row in 0..ROWS {
            plain.targets[row] = numbers.next(4);
        }
        for place in 0..ROWS * COLUMNS {
            plain.entries[place] = numbers.next(3);
        }
        if run_log::<Brand>(&rt, alloc, &plain, &mut numbers, Blank::new(1)) {
            closed = closed.wrapping_add(1);
        }
    }
    assert!(rt; closed >= 300, "only {closed} logs were closed");
}
