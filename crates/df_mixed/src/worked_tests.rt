// Families whose verdicts and tables were worked out by hand or are known from the literature.
ghost use Rattle.std.specs.Prelude.{◌≤◌, ◌^◌, length};

use crate::{DevelopUnder, MixedVerdict, pair_table, verify_under};
use df_lang::{Problem, parse};
use df_subsets::{Block, Point};
use std::alloc::Global;
use std::process::Abort;

// A Steiner triple system on 15 points, by the translations of the second factor alone: a block with a point of each coset, and
// for each coset two blocks with two of its points and one of the next coset.
const TRIPLES: &[u8] =
    b"group 3 5\nsubgroup H 0,1\nshift H\nk 3\nlambda 1\nbase 0,0 1,0 2,0\nbase 0,0 0,1 1,3\nbase 0,0 0,2 1,1\nbase 1,0 1,1 2,3\nbase 1,0 1,2 2,1\nbase 2,0 2,1 0,3\nbase 2,0 2,2 0,1\n";

// The same without the last block.
const WITHOUT_LAST: &[u8] =
    b"group 3 5\nsubgroup H 0,1\nshift H\nk 3\nlambda 1\nbase 0,0 1,0 2,0\nbase 0,0 0,1 1,3\nbase 0,0 0,2 1,1\nbase 1,0 1,1 2,3\nbase 1,0 1,2 2,1\nbase 2,0 2,1 0,3\n";

// The plane of order 2, developed by all elements.
const PLANE: &[u8] = b"group 7\nk 3\nlambda 1\nbase 0 1 3\n";

// All pairs of 4 elements and 2 fixed points, by the elements 0 and 2: each pair that a shift keeps is short.
const SHORT: &[u8] =
    b"group 4\nfixed 2\nsubgroup H 2\nshift H\nk 2\nlambda 1\nhole 1\nshort 0 2\nshort 1 3\nbase 0 1\nbase 0 3\nbase 0 inf1\nbase 1 inf1\nbase 0 inf2\nbase 1 inf2\nshort inf1 inf2\n";

// The same, where the block of the two fixed points is developed with repeats.
const REPEATED: &[u8] =
    b"group 4\nfixed 2\nsubgroup H 2\nshift H\nk 2\nlambda 1\nhole 1\nshort 0 2\nshort 1 3\nbase 0 1\nbase 0 3\nbase 0 inf1\nbase 1 inf1\nbase 0 inf2\nbase 1 inf2\nbase inf1 inf2\n";

// The problem that a source states.
fn problem_of(rt: &impl Abort, alloc: Global, source: &[u8]) -> Problem
    requires { length source.now ≤ 2 ^ 32 }
{
    parse(alloc, source).expect(rt, "a source")
}

// Whether this is the verdict on the problem of the source.
fn verdict_is(rt: &impl Abort, alloc: Global, source: &[u8], expected: MixedVerdict) -> bool
    requires { length source.now ≤ 2 ^ 32 }
{
    let problem = problem_of(rt, alloc, source);
    verify_under(alloc, &problem).expect(rt, "memory") == expected
}

fn triple(a: u8, b: u8, c: u8) -> Option<Block> {
    Block::from_points(&[Point(a), Point(b), Point(c)])
}

#[test]
fn verdicts(rt: HostRuntime) {
    let alloc = rt.alloc();
    assert!(rt; verdict_is(&rt, alloc, TRIPLES, MixedVerdict::Accepted { blocks: 35 }));
    assert!(rt; verdict_is(&rt, alloc, PLANE, MixedVerdict::Accepted { blocks: 7 }));
    assert!(rt; verdict_is(&rt, alloc, SHORT, MixedVerdict::Accepted { blocks: 15 }));
    // The rows whose first point is 0 are those with 1, with 2 and with 5 to 14; the block that isn't there joins 0 and 11.
    assert!(rt;
        verdict_is(
            &rt,
            alloc,
            WITHOUT_LAST,
            MixedVerdict::Refused {
                place: 8,
                found: 0,
                stated: 1
            }
        )
    );
    // The rows are 0 with each later point, 1 with 3 and with both fixed points, and the two fixed points.
    assert!(rt;
        verdict_is(
            &rt,
            alloc,
            REPEATED,
            MixedVerdict::Refused {
                place: 8,
                found: 2,
                stated: 1
            }
        )
    );
}

#[test]
fn the_row_that_differs(rt: HostRuntime) {
    let alloc = rt.alloc();
    let problem = problem_of(&rt, alloc, WITHOUT_LAST);
    let table = pair_table(alloc, &problem).expect(&rt, "memory");
    let Some(place) = table.first_wrong() else {
        assert!(rt; false);
        return;
    };
    assert!(rt; place < table.len());
    assert!(rt; table.pair(place) == (Point(0), Point(11)));
    assert_eq!(rt; table.found(place), 0);
    assert_eq!(rt; table.stated(place), 1);
}

#[test]
fn development_by_a_subgroup(rt: HostRuntime) {
    let problem = problem_of(&rt, rt.alloc(), TRIPLES);
    let mut develop = DevelopUnder::new(&problem);
    assert!(rt; develop.next() == triple(0, 5, 10));
    assert!(rt; develop.next() == triple(1, 6, 11));
    assert!(rt; develop.next() == triple(2, 7, 12));
    assert!(rt; develop.next() == triple(3, 8, 13));
    assert!(rt; develop.next() == triple(4, 9, 14));
    assert!(rt; develop.next() == triple(0, 1, 8));
}
