// Logs of problems with their design lines, worked out by hand, and each fault with its numbers.
ghost use Rattle.std.specs.Prelude.{◌≤◌, ◌^◌, length};

use crate::tests::{Line, cut};
use crate::{Checker, CutRow, Entry, Fed, LogFault};
use df_lang::parse;
use df_matrix::{OrbitMatrix, build};
use df_subsets::{Block, Point};
use std::alloc::{AllocError, Global};
use std::process::Abort;

/// A line: one of a log, or a design by the points of its blocks.
#[derive(Clone, Copy)]
enum Given<'s> {
    Log(Line<'s>),
    Design(&'s [&'s [u8]]),
}

/// The matrix of a source.
pub(super) fn matrix_of(alloc: Global, source: &[u8]) -> Option<OrbitMatrix>
    requires { length source.now ≤ 2 ^ 32 }
{
    let Ok(problem) = parse(alloc, source) else {
        return None;
    };
    build(alloc, &problem).ok()
}

/// The block of these points.
fn block_of(points: &[u8]) -> Block {
    let mut block = Block::empty();
    for p in points {
        if *p < 128 {
            block.insert(Point(*p));
        }
    }
    block
}

/// The blocks of these points.
fn blocks_of(alloc: Global, blocks: &[&[u8]]) -> Result<Vec<Block>, AllocError> {
    let mut listed = Vec::new(alloc);
    for points in blocks {
        listed.push(block_of(points))?;
    }
    Ok(listed)
}

/// What a checker answers to a line of a log that is no leaf.
pub(super) fn feed(checker: &mut Checker<'_>, line: Line<'_>) -> Fed {
    match line {
        Line::Branch(column) => checker.feed(Entry::Branch(column)),
        Line::Over(row) => checker.feed(Entry::Over(row)),
        Line::Under(row) => checker.feed(Entry::Under(row)),
        Line::Settled => checker.feed(Entry::Settled),
        Line::Residue(row, divisor) => checker.feed(Entry::Residue { row, divisor }),
        Line::Cut(rows) => checker.feed(cut(rows)),
        Line::Leaf(_) => Fed::Fault(LogFault::NotEntry),
    }
}

/// Feeds lines to a new checker of the matrix of a source. All but the last line are accepted, the
/// last is answered so, and then the log is closed or not.
fn ends(rt: &impl Abort, alloc: Global, source: &[u8], lines: &[Given<'_>], last: Fed, closed: bool)
    requires { length source.now ≤ 2 ^ 32 }
{
    let matrix = matrix_of(alloc, source).expect(rt, "a matrix");
    let mut checker = Checker::new(alloc, &matrix).expect(rt, "memory");
    let mut designs: u64 = 0;
    let mut answer = Fed::Ok;
    for line in lines {
        assert!(rt; !matches!(answer, Fed::Fault(_)) && !checker.closed());
        match line {
            Given::Log(line) => answer = feed(&mut checker, *line),
            Given::Design(blocks) => {
                let blocks = blocks_of(alloc, blocks).expect(rt, "memory");
                answer = checker.feed_design(&blocks);
                if answer == Fed::Ok {
                    designs = designs.wrapping_add(1);
                }
            }
        }
    }
    assert_eq!(rt; answer, last);
    assert_eq!(rt; checker.closed(), closed);
    assert_eq!(rt; checker.designs(), designs);
}

/// Seven points: the columns are 0 1 3 and 0 1 5, each with the entries 1 1 1.
const SEVEN: &[u8] = b"group 7\nk 3\nlambda 1\n";

/// The log of the walk.
const WALK: [Given<'static>; 7] = [
    Given::Log(Line::Branch(0)),
    Given::Log(Line::Settled),
    Given::Design(&[&[0, 1, 3]]),
    Given::Log(Line::Branch(1)),
    Given::Log(Line::Settled),
    Given::Design(&[&[0, 1, 5]]),
    Given::Log(Line::Under(0)),
];

#[test]
fn columns_in_each_order_are_accepted(rt: HostRuntime) {
    ends(&rt, rt.alloc(), SEVEN, &WALK, Fed::Ok, true);
    let other = [
        Given::Log(Line::Branch(1)),
        Given::Log(Line::Settled),
        Given::Design(&[&[0, 1, 5]]),
        Given::Log(Line::Branch(0)),
        Given::Log(Line::Settled),
        Given::Design(&[&[0, 1, 3]]),
        Given::Log(Line::Under(0)),
    ];
    ends(&rt, rt.alloc(), SEVEN, &other, Fed::Ok, true);
    for count in 0..7 {
        let last = if count == 2 || count == 5 {
            Fed::WantsDesign
        } else {
            Fed::Ok
        };
        ends(&rt, rt.alloc(), SEVEN, &other[..count], last, false);
    }
}

/// The log of the walk up to a place, where this line stands: its fault.
fn faults(rt: &impl Abort, alloc: Global, place: usize, line: Given<'_>, fault: LogFault) {
    let mut lines = WALK;
    for other in 0..7 {
        if other == place {
            lines[other] = line;
        }
    }
    if place < 7 {
        ends(
            rt,
            alloc,
            SEVEN,
            &lines[..place + 1],
            Fed::Fault(fault),
            false,
        );
    }
}

#[test]
fn each_fault_is_told(rt: HostRuntime) {
    let alloc = rt.alloc();
    let differs = |place: i64| LogFault::DesignDiffers { place };
    faults(
        &rt,
        alloc,
        0,
        Given::Log(Line::Branch(2)),
        LogFault::ColumnRange,
    );
    let need = LogFault::NotSettled { row: 0, need: 1 };
    faults(&rt, alloc, 0, Given::Log(Line::Settled), need);
    let under = LogFault::NotUnder { need: 1, cap: 1 };
    faults(&rt, alloc, 3, Given::Log(Line::Under(0)), under);
    faults(
        &rt,
        alloc,
        2,
        Given::Log(Line::Branch(1)),
        LogFault::DesignWanted,
    );
    faults(
        &rt,
        alloc,
        3,
        Given::Log(Line::Branch(0)),
        LogFault::ColumnDecided,
    );
    faults(
        &rt,
        alloc,
        3,
        Given::Design(&[&[0, 1, 3]]),
        LogFault::NotEntry,
    );
    faults(&rt, alloc, 0, Given::Design(&[]), LogFault::NotEntry);
    faults(
        &rt,
        alloc,
        5,
        Given::Design(&[&[0, 1, 5], &[0, 1, 5]]),
        differs(1),
    );
    faults(&rt, alloc, 5, Given::Design(&[&[0, 1, 4]]), differs(0));
    faults(&rt, alloc, 5, Given::Design(&[&[0, 1, 3]]), differs(0));
    faults(&rt, alloc, 5, Given::Design(&[&[0, 1]]), differs(0));
    faults(&rt, alloc, 5, Given::Design(&[]), differs(0));
    faults(&rt, alloc, 6, Given::Log(Line::Over(3)), LogFault::RowRange);
    let over = LogFault::NotOver { need: 1 };
    faults(&rt, alloc, 6, Given::Log(Line::Over(0)), over);
}

/// Seven points with a multiplier: the columns are 0 1 2 (2 1 0), 0 1 3 (2 2 2), 0 1 4 (1 0 2) and
/// 0 2 4 (0 2 1), and the targets 3 3 3.
const MULTIPLIED: &[u8] = b"group 7\nmult 6\nk 3\nlambda 3\n";

/// Its log up to the last entry.
const THREE: [Given<'static>; 9] = [
    Given::Log(Line::Branch(0)),
    Given::Log(Line::Branch(1)),
    Given::Log(Line::Over(0)),
    Given::Log(Line::Branch(2)),
    Given::Log(Line::Branch(3)),
    Given::Log(Line::Settled),
    Given::Design(&[&[0, 1, 2], &[0, 1, 4], &[0, 2, 4]]),
    Given::Log(Line::Under(1)),
    Given::Log(Line::Under(0)),
];

/// The log up to a place, and there this line: what is answered to it.
fn after_three(
    rt: &impl Abort,
    alloc: Global,
    place: usize,
    line: Given<'_>,
    last: Fed,
    closed: bool,
) {
    let mut lines = [line; 10];
    for other in 0..9 {
        if other < place {
            lines[other] = THREE[other];
        }
    }
    if place < 10 {
        ends(rt, alloc, MULTIPLIED, &lines[..place + 1], last, closed);
    }
}

#[test]
fn designs_of_several_blocks_are_compared_block_by_block(rt: HostRuntime) {
    let alloc = rt.alloc();
    let residue = Given::Log(Line::Residue(1, 2));
    after_three(&rt, alloc, 9, residue, Fed::Ok, true);
    let rows = [CutRow { weight: 2, row: 0 }, CutRow { weight: -1, row: 2 }];
    after_three(&rt, alloc, 9, Given::Log(Line::Cut(&rows)), Fed::Ok, true);
    let cut = LogFault::NotCut {
        least: 0,
        greatest: 3,
    };
    let rows = [CutRow { weight: 1, row: 0 }];
    after_three(
        &rt,
        alloc,
        9,
        Given::Log(Line::Cut(&rows)),
        Fed::Fault(cut),
        false,
    );
    let rest = LogFault::NotResidue { need: 3, column: 2 };
    after_three(
        &rt,
        alloc,
        9,
        Given::Log(Line::Residue(0, 2)),
        Fed::Fault(rest),
        false,
    );
    for (blocks, place) in [
        ([[0u8, 1, 2], [0, 1, 4], [0, 2, 5]], 2i64),
        ([[0, 1, 2], [0, 1, 3], [0, 2, 4]], 1),
        ([[0, 1, 3], [0, 1, 4], [0, 2, 4]], 0),
        ([[0, 1, 4], [0, 1, 2], [0, 2, 4]], 0),
    ] {
        let line = Given::Design(&[&blocks[0], &blocks[1], &blocks[2]]);
        let fault = LogFault::DesignDiffers { place };
        after_three(&rt, alloc, 6, line, Fed::Fault(fault), false);
    }
    let short = Given::Design(&[&[0, 1, 2], &[0, 1, 4]]);
    let fault = LogFault::DesignDiffers { place: 2 };
    after_three(&rt, alloc, 6, short, Fed::Fault(fault), false);
}

#[test]
fn nothing_is_taken_after_the_end(rt: HostRuntime) {
    let matrix = matrix_of(rt.alloc(), b"group 7\nk 3\nlambda 0\n").expect(&rt, "a matrix");
    let mut checker = Checker::new(rt.alloc(), &matrix).expect(&rt, "memory");
    assert_eq!(rt; checker.feed(Entry::Settled), Fed::WantsDesign);
    assert!(rt; !checker.closed());
    assert_eq!(rt; checker.feed_design(&[]), Fed::Ok);
    assert!(rt; checker.closed());
    assert_eq!(rt;
        checker.feed(Entry::Settled),
        Fed::Fault(LogFault::AfterClose)
    );
    assert_eq!(rt; checker.feed_design(&[]), Fed::Fault(LogFault::AfterClose));
    assert!(rt; !checker.closed());
    assert_eq!(rt; checker.designs(), 1);
}
