// Designs against the plain trial of all unions of orbits: each design's base blocks and blocks, by `next` and by `advance`, and what remains at each node.
ghost use Rattle.std.specs.Prelude.{◌≡◌, ◌<◌, ◌≤◌, ◌^◌, length};

use crate::tests::callers::{has_more, listed_blocks, listed_reps};
use crate::tests::plain_designs::{PlainDesign, plain_designs};
use crate::{Designs, Event, Rules, Turn};
use df_lang::parse;
use df_matrix::{OrbitMatrix, build};
use df_steps::Steps;
use df_system::Path;
use std::alloc::Global;
use std::marker::Brand;
use std::process::Abort;
use std::sync::ledger::{Blank, Ledger};

// What remains is these designs, by `next`.
fn assert_next<L: Ledger>(
    rt: &impl Abort,
    alloc: Global,
    designs: &mut Designs<'_>,
    steps: &mut Steps<L>,
    expected: &[PlainDesign],
) {
    let mut budget = 1_000_000;
    for design in expected {
        match designs.next(&mut budget, steps) {
            Turn::Design => {
                let reps = listed_reps(alloc, designs).expect(rt, "memory");
                assert!(rt; reps.as_slice() == design.base.as_slice());
                let blocks = listed_blocks(alloc, designs).expect(rt, "memory");
                assert!(rt; blocks.as_slice() == design.blocks.as_slice());
            }
            _ => assert!(rt; false),
        }
    }
    assert_eq!(rt; designs.next(&mut budget, steps), Turn::Finished);
    assert_eq!(rt; designs.next(&mut budget, steps), Turn::Finished);
}

// A path as it is written.
fn written(rt: &impl Abort, alloc: Global, path: &[bool]) -> Path {
    let mut chosen = Vec::new(alloc);
    let mut length: u32 = 0;
    for yes in path {
        if *yes {
            chosen.push(length).expect(rt, "memory");
        }
        length = length.wrapping_add(1);
    }
    Path::new(length, chosen).expect(rt, "a path")
}

// From each node on what remains is the designs that weren't found before it, where the walk goes on node by node.
fn assert_resumed<L: Ledger>(
    rt: &impl Abort,
    alloc: Global,
    matrix: &OrbitMatrix,
    rules: Rules,
    steps: &mut Steps<L>,
    expected: &[PlainDesign],
) {
    let mut designs = Designs::start(alloc, matrix, rules, steps).expect(rt, "memory");
    let mut left = expected;
    for _ in 0..1_000_000u32 {
        let mut budget = 0;
        match designs.advance(&mut budget, steps) {
            Event::Spent => {
                let place = designs.place();
                let path = written(rt, alloc, place.decisions);
                let resumed = Designs::from_path(alloc, matrix, &path, rules, steps);
                let mut resumed = resumed.expect(rt, "a node");
                assert_next(rt, alloc, &mut resumed, steps, left);
                let more = has_more(alloc, matrix, &path, rules, &mut 1_000_000, steps);
                assert_eq!(rt; more.expect(rt, "a node"), Some(!left.is_empty()));
                budget = 1;
                if designs.advance(&mut budget, steps) == Event::Solution {
                    let Some((design, others)) = left.split_first() else {
                        return assert!(rt; false);
                    };
                    let blocks = listed_blocks(alloc, &designs).expect(rt, "memory");
                    assert!(rt; blocks.as_slice() == design.blocks.as_slice());
                    left = others;
                }
            }
            Event::Finished => return assert!(rt; left.is_empty()),
            _ => {}
        }
    }
    assert!(rt; false);
}

// How many designs the problem of a text asks for: those of its matrix are those of the plain trial, by both rules.
fn compare<L: Ledger>(rt: &impl Abort, alloc: Global, text: &[u8], blank: Blank) -> usize
    requires small { length text.now ≤ 2 ^ 32 }
    requires name { blank.name ≡ L.name }
    requires parts { blank.parts ≡ L.parts }
    requires some { 0 < blank.parts }
{
    let mut steps = Steps::<L>::new(blank);
    let problem = parse(alloc, text).expect(rt, "a problem");
    let expected = plain_designs(rt, alloc, &problem);
    let matrix = build(alloc, &problem).expect(rt, "a matrix");
    for rules in [Rules::Plain, Rules::Divisor] {
        let designs = Designs::start(alloc, &matrix, rules, &mut steps);
        assert_next(
            rt,
            alloc,
            &mut designs.expect(rt, "memory"),
            &mut steps,
            &expected,
        );
        assert_resumed(rt, alloc, &matrix, rules, &mut steps, &expected);
    }
    expected.len()
}

// Groups of few orbits: short orbits, fixed points (alone in a block too), multipliers, no translations, targets of their own, blocks of 16 points, two sizes,
// required and forbidden blocks. Beside each text stands how many designs another program found.
#[test]
fn designs_are_those_of_a_plain_trial(rt: HostRuntime) {
    let alloc = rt.alloc();
    for (text, count) in [
        ("group 7\nk 3\nlambda 0\n", 1),
        ("group 7\nk 3\nlambda 1\n", 2),
        ("group 7\nk 3\nlambda 2\n", 1),
        ("group 7\nk 3\nlambda 5\n", 1),
        ("group 9\nk 3\nlambda 1\n", 0),
        ("group 9\nsubgroup N 3\nk 3\nlambda 0\ninside N 1\n", 1),
        ("group 8\nsubgroup N 4\nk 3\nlambda 1\ninside N 0\n", 2),
        ("group 8\nfixed 1\nk 3\nlambda 1\n", 2),
        ("group 7\nfixed 1\nmult 2\nk 4\nlambda 3\n", 4),
        ("group 3 3\nk 3\nlambda 1\n", 9),
        ("group 2 4\nmult 3\nk 4\nlambda 3\n", 4),
        ("group 3\nfixed 3\nk 3\nlambda 0\nhole 1\n", 1),
        ("group 2 2\nfixed 3\nk 3\nlambda 0\nhole 1\n", 1),
        ("group 16\nk 16\nlambda 1\n", 1),
        ("group 2 2 2 2\nk 16\nlambda 1\n", 1),
        ("version 2\ngroup 4\nshift none\nk 2 3\nlambda 1\n", 5),
        ("version 2\ngroup 5\nfixed 2\nk 2 3\nlambda 1\nhole 1\n", 1),
        ("version 2\ngroup 6\nk 2 3\nlambda 1\n", 2),
        ("version 2\ngroup 6\nk 2 3\nlambda 1\nrequire 0 2 4\n", 1),
        (
            "version 2\ngroup 7\nmult 6\nk 3\nlambda 2\nrequire 3 4 6\nforbid 2 3 6\n",
            1,
        ),
        ("version 2\ngroup 15\nmult 2\nk 3 15\nlambda 2\n", 2),
    ] {
        let found = compare::<Brand>(&rt, alloc, text.as_bytes(), Blank::new(1));
        assert_eq!(rt; found, count, "{text}");
    }
}
