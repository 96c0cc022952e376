// What no clause says: families worked out by hand.
ghost use Rattle.std.specs.Prelude.{◌≤◌, ◌^◌, length};

use super::*;
use crate::problem_pieces::member_at;
use df_group::Elem;
use df_lang::{Problem, parse};
use df_subsets::{Block, Point};
use std::alloc::Global;

// The plane of order 2: 0, 1, 3 have each difference of two elements once.
const PLANE: &[u8] = b"group 7\nk 3\nlambda 1\nbase 0 1 3\n";

// 0, 1, 2 have the difference 1 twice.
const NO_PLANE: &[u8] = b"group 7\nk 3\nlambda 1\nbase 0 1 2\n";

// The triples on 9 points that fix a point: 4 and the fixed point make a short block.
const TRIPLES: &[u8] = b"group 8\nfixed 1\nk 3\nlambda 1\nshort inf1 0 4\nbase 0 1 3\n";

// The same block, developed with repeats.
const REPEATED: &[u8] = b"group 8\nfixed 1\nk 3\nlambda 1\nbase inf1 0 4\nbase 0 1 3\n";

// All differences but 4, which joins points of one coset of its subgroup.
const DIVISIBLE: &[u8] = b"group 8\nsubgroup N 4\nk 3\nlambda 1\ninside N 0\nbase 0 1 3\n";

// The same where 4 has to occur too.
const WITHOUT_INSIDE: &[u8] = b"group 8\nk 3\nlambda 1\nbase 0 1 3\n";

// All pairs of 3 elements and 2 fixed points.
const PAIRS: &[u8] =
    b"group 3\nfixed 2\nk 2\nlambda 1\nbase 0 1\nbase 0 inf1\nbase 0 inf2\nshort inf1 inf2\n";

// The same where the pair of fixed points is to lie in no block.
const HOLE: &[u8] =
    b"group 3\nfixed 2\nk 2\nlambda 1\nhole 0\nbase 0 1\nbase 0 inf1\nbase 0 inf2\nshort inf1 inf2\n";

// Whether this is the verdict on the problem of the source.
fn verdict_is(alloc: Global, source: &[u8], expected: Verdict) -> bool
    requires { length source.now ≤ 2 ^ 32 }
{
    let Ok(problem) = parse(alloc, source) else {
        return false;
    };
    match verify(alloc, &problem) {
        Ok(verdict) => verdict == expected,
        Err(_) => false,
    }
}

fn triple(a: u8, b: u8, c: u8) -> Option<Block> {
    Block::from_points(&[Point(a), Point(b), Point(c)])
}

#[test]
fn verdicts(rt: HostRuntime) {
    assert!(rt; verdict_is(rt.alloc(), PLANE, Verdict::Accepted { blocks: 7 }));
    assert!(rt;
        verdict_is(
            rt.alloc(),
            NO_PLANE,
            Verdict::Refused {
                row: Row::Diff(Elem(1)),
                found: 2,
                stated: 1
            }
        )
    );
    assert!(rt; verdict_is(rt.alloc(), TRIPLES, Verdict::Accepted { blocks: 12 }));
    assert!(rt;
        verdict_is(
            rt.alloc(),
            REPEATED,
            Verdict::Refused {
                row: Row::Diff(Elem(4)),
                found: 2,
                stated: 1
            }
        )
    );
    assert!(rt; verdict_is(rt.alloc(), DIVISIBLE, Verdict::Accepted { blocks: 8 }));
    assert!(rt;
        verdict_is(
            rt.alloc(),
            WITHOUT_INSIDE,
            Verdict::Refused {
                row: Row::Diff(Elem(4)),
                found: 0,
                stated: 1
            }
        )
    );
    assert!(rt; verdict_is(rt.alloc(), PAIRS, Verdict::Accepted { blocks: 10 }));
    assert!(rt;
        verdict_is(
            rt.alloc(),
            HOLE,
            Verdict::Refused {
                row: Row::TwoFixed(1, 2),
                found: 1,
                stated: 0
            }
        )
    );
}

#[test]
fn development_of_the_plane(rt: HostRuntime) {
    let Ok(plane) = parse(rt.alloc(), PLANE) else {
        assert!(rt; false);
        return;
    };
    let mut develop = Develop::new(&plane);
    assert!(rt; develop.next() == triple(0, 1, 3));
    assert!(rt; develop.next() == triple(1, 2, 4));
    assert!(rt; develop.next() == triple(2, 3, 5));
    assert!(rt; develop.next() == triple(3, 4, 6));
    assert!(rt; develop.next() == triple(0, 4, 5));
    assert!(rt; develop.next() == triple(1, 5, 6));
    assert!(rt; develop.next() == triple(0, 2, 6));
    assert!(rt; develop.next().is_none());
    assert!(rt; develop.next().is_none());
}

#[test]
fn development_of_a_short_block(rt: HostRuntime) {
    let Ok(triples) = parse(rt.alloc(), TRIPLES) else {
        assert!(rt; false);
        return;
    };
    let mut develop = Develop::new(&triples);
    assert!(rt; develop.next() == triple(0, 4, 8));
    assert!(rt; develop.next() == triple(1, 5, 8));
    assert!(rt; develop.next() == triple(2, 6, 8));
    assert!(rt; develop.next() == triple(3, 7, 8));
    assert!(rt; develop.next() == triple(0, 1, 3));
    assert!(rt; develop.next() == triple(1, 2, 4));
    if let Some(member) = member_at(&triples, 0) {
        assert_eq!(rt; stabilizer(&triples, &member.block), 2);
    }
    if let Some(member) = member_at(&triples, 1) {
        assert_eq!(rt; stabilizer(&triples, &member.block), 1);
    }
}

#[test]
fn table_with_fixed_points(rt: HostRuntime) {
    let Ok(pairs) = parse(rt.alloc(), HOLE) else {
        assert!(rt; false);
        return;
    };
    let Ok(table) = difference_table(rt.alloc(), &pairs) else {
        assert!(rt; false);
        return;
    };
    assert_eq!(rt; table.len(), 5);
    assert_eq!(rt; table.row(0), Row::Diff(Elem(1)));
    assert_eq!(rt; table.row(1), Row::Diff(Elem(2)));
    assert_eq!(rt; table.row(2), Row::WithFixed(1));
    assert_eq!(rt; table.row(3), Row::WithFixed(2));
    assert_eq!(rt; table.row(4), Row::TwoFixed(1, 2));
    for place in 0..5 {
        assert_eq!(rt; table.found(place), 1);
        assert_eq!(rt; table.stated(place), if place < 4 { 1 } else { 0 });
    }
    assert_eq!(rt; table.first_wrong(), Some(4));
}
