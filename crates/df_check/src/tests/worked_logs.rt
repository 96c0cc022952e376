// Logs that were worked out by hand, in several orders of branching, and each fault with its numbers.
ghost use Rattle.std.specs.Prelude.{◌≡◌, ◌<◌};

use crate::tests::{Line, feed, is_bounded, system_of};
use crate::{CutRow, Fed, LogFault, SystemChecker};
use df_steps::Steps;
use std::alloc::Global;
use std::marker::Brand;
use std::process::Abort;
use std::sync::ledger::{Blank, Ledger};

/// Feeds lines to a new checker of the system with these targets and entries.
/// All but the last line are accepted, the last is answered so, and then the log is closed or not.
fn ends<L: Ledger>(
    rt: &impl Abort,
    alloc: Global,
    system: (&[u32], &[u32]),
    lines: &[Line<'_>],
    last: Fed,
    closed: bool,
    blank: Blank,
)
    requires name { blank.name ≡ L.name }
    requires parts { blank.parts ≡ L.parts }
    requires some { 0 < blank.parts }
{
    let mut steps = Steps::<L>::new(blank);
    let system = system_of(alloc, system.0, system.1).expect(rt, "a system");
    let bounded = is_bounded(&system, &mut steps);
    assert!(rt; bounded);
    let mut checker = SystemChecker::new(alloc, &system).expect(rt, "memory");
    let mut leaves: u64 = 0;
    let mut answer = Fed::Ok;
    for line in lines {
        assert!(rt; !matches!(answer, Fed::Fault(_)) && !checker.closed());
        answer = feed(&mut checker, *line);
        if matches!(line, Line::Leaf(_)) && answer == Fed::Ok {
            leaves = leaves.wrapping_add(1);
        }
    }
    assert_eq!(rt; answer, last);
    assert_eq!(rt; checker.closed(), closed);
    assert_eq!(rt; checker.leaves(), leaves);
}

fn closes(rt: &impl Abort, alloc: Global, system: (&[u32], &[u32]), lines: &[Line<'_>]) {
    ends::<Brand>(rt, alloc, system, lines, Fed::Ok, true, Blank::new(1));
}

fn stays_open(rt: &impl Abort, alloc: Global, system: (&[u32], &[u32]), lines: &[Line<'_>]) {
    ends::<Brand>(rt, alloc, system, lines, Fed::Ok, false, Blank::new(1));
}

fn faults(
    rt: &impl Abort,
    alloc: Global,
    system: (&[u32], &[u32]),
    lines: &[Line<'_>],
    fault: LogFault,
) {
    ends::<Brand>(
        rt,
        alloc,
        system,
        lines,
        Fed::Fault(fault),
        false,
        Blank::new(1),
    );
}

/// Targets 1 and 1 over the columns 1 0, 0 1 and 1 1: the solutions are columns 0 and 1, and column 2.
const PAIRS: (&[u32], &[u32]) = (&[1, 1], &[1, 0, 0, 1, 1, 1]);

/// Target 3 over the columns 2, 2 and 4.
const EVEN: (&[u32], &[u32]) = (&[3], &[2, 2, 4]);

#[test]
fn columns_in_any_order_are_accepted(rt: HostRuntime) {
    let first = [
        Line::Branch(0),
        Line::Branch(1),
        Line::Settled,
        Line::Leaf(&[0, 1]),
        Line::Branch(2),
        Line::Over(0),
        Line::Under(1),
        Line::Branch(2),
        Line::Settled,
        Line::Leaf(&[2]),
        Line::Under(0),
    ];
    closes(&rt, rt.alloc(), PAIRS, &first);
    let last = [
        Line::Branch(2),
        Line::Settled,
        Line::Leaf(&[2]),
        Line::Branch(1),
        Line::Branch(0),
        Line::Settled,
        Line::Leaf(&[0, 1]),
        Line::Under(0),
        Line::Under(1),
    ];
    closes(&rt, rt.alloc(), PAIRS, &last);
    stays_open(&rt, rt.alloc(), PAIRS, &last[..8]);
    stays_open(&rt, rt.alloc(), PAIRS, &last[..3]);
    stays_open(&rt, rt.alloc(), PAIRS, &[]);
}

#[test]
fn residues_and_cuts_are_accepted(rt: HostRuntime) {
    closes(&rt, rt.alloc(), EVEN, &[Line::Residue(0, 2)]);
    closes(
        &rt,
        rt.alloc(),
        EVEN,
        &[Line::Branch(0), Line::Residue(0, 2), Line::Residue(0, 2)],
    );
    closes(
        &rt,
        rt.alloc(),
        (&[9], &[2, 2, 4]),
        &[Line::Cut(&[CutRow { weight: 1, row: 0 }])],
    );
    closes(
        &rt,
        rt.alloc(),
        (&[2, 1], &[1, 1, 1, 1]),
        &[Line::Cut(&[CutRow { weight: -1, row: 0 }, CutRow { weight: 1, row: 1 }])],
    );
    closes(
        &rt,
        rt.alloc(),
        (&[0], &[]),
        &[Line::Settled, Line::Leaf(&[])],
    );
}

#[test]
fn faults_of_branches_and_of_rows_are_told(rt: HostRuntime) {
    let alloc = rt.alloc();
    faults(&rt, alloc, PAIRS, &[Line::Branch(3)], LogFault::ColumnRange);
    faults(
        &rt,
        alloc,
        PAIRS,
        &[Line::Branch(1), Line::Branch(1)],
        LogFault::ColumnDecided,
    );
    faults(&rt, alloc, PAIRS, &[Line::Over(2)], LogFault::RowRange);
    faults(
        &rt,
        alloc,
        PAIRS,
        &[Line::Over(1)],
        LogFault::NotOver { need: 1 },
    );
    let met = [Line::Branch(0), Line::Over(0)];
    faults(&rt, alloc, PAIRS, &met, LogFault::NotOver { need: 0 });
    faults(
        &rt,
        alloc,
        PAIRS,
        &[Line::Under(0)],
        LogFault::NotUnder { need: 1, cap: 2 },
    );
    let met = [Line::Branch(0), Line::Under(0)];
    faults(
        &rt,
        alloc,
        PAIRS,
        &met,
        LogFault::NotUnder { need: 0, cap: 1 },
    );
}

#[test]
fn faults_of_settled_entries_and_residues_are_told(rt: HostRuntime) {
    let alloc = rt.alloc();
    faults(
        &rt,
        alloc,
        PAIRS,
        &[Line::Settled],
        LogFault::NotSettled { row: 0, need: 1 },
    );
    let second = [Line::Branch(0), Line::Settled];
    faults(
        &rt,
        alloc,
        PAIRS,
        &second,
        LogFault::NotSettled { row: 1, need: 1 },
    );
    let odd = [Line::Residue(0, 4)];
    faults(
        &rt,
        alloc,
        EVEN,
        &odd,
        LogFault::NotResidue { need: 3, column: 0 },
    );
    let whole = [Line::Residue(0, 1)];
    faults(
        &rt,
        alloc,
        EVEN,
        &whole,
        LogFault::NotResidue {
            need: 3,
            column: -1,
        },
    );
    faults(
        &rt,
        alloc,
        EVEN,
        &[Line::Residue(0, 0)],
        LogFault::NotResidue { need: 3, column: 0 },
    );
}

#[test]
fn faults_of_cuts_are_told(rt: HostRuntime) {
    let alloc = rt.alloc();
    let one = [Line::Cut(&[CutRow { weight: 1, row: 0 }])];
    faults(
        &rt,
        alloc,
        (&[8], &[2, 2, 4]),
        &one,
        LogFault::NotCut {
            least: 0,
            greatest: 8,
        },
    );
    let less = [Line::Cut(&[CutRow { weight: -2, row: 0 }])];
    faults(
        &rt,
        alloc,
        (&[8], &[2, 2, 4]),
        &less,
        LogFault::NotCut {
            least: -16,
            greatest: 0,
        },
    );
    let far = [Line::Cut(&[CutRow { weight: 1, row: 0 }, CutRow { weight: 1, row: 1 }])];
    faults(&rt, alloc, EVEN, &far, LogFault::RowRange);
}

#[test]
fn faults_of_leaves_are_told(rt: HostRuntime) {
    let alloc = rt.alloc();
    let leaf = [Line::Branch(2), Line::Settled, Line::Leaf(&[1, 2])];
    faults(
        &rt,
        alloc,
        PAIRS,
        &leaf,
        LogFault::DesignDiffers { place: 0 },
    );
    let long = [Line::Branch(2), Line::Settled, Line::Leaf(&[2, 3])];
    faults(
        &rt,
        alloc,
        PAIRS,
        &long,
        LogFault::DesignDiffers { place: 1 },
    );
    let wanted = [Line::Branch(2), Line::Settled, Line::Branch(9)];
    faults(&rt, alloc, PAIRS, &wanted, LogFault::DesignWanted);
    faults(
        &rt,
        alloc,
        PAIRS,
        &[Line::Branch(2), Line::Leaf(&[2])],
        LogFault::NotEntry,
    );
}
