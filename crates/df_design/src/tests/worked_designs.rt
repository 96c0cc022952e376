// Designs known by hand, and what no clause says: that memory is enough.
ghost use Rattle.std.specs.Prelude.{◌≡◌, ◌<◌, ◌≤◌, ◌^◌, length};

use crate::tests::callers::{first_design, listed_blocks, listed_reps};
use crate::{Designs, Rules, Turn};
use df_lang::parse;
use df_matrix::{OrbitMatrix, build};
use df_steps::Steps;
use df_subsets::{Block, Point};
use std::alloc::Global;
use std::marker::Brand;
use std::process::Abort;
use std::sync::ledger::{Blank, Ledger};

fn matrix_of(rt: &impl Abort, alloc: Global, text: &str) -> OrbitMatrix {
    let bytes = text.as_bytes();
    assert!(rt; bytes.len() < 1000);
    let problem = parse(alloc, bytes).expect(rt, "a problem");
    build(alloc, &problem).expect(rt, "a matrix")
}

// The blocks are these, point by point.
fn are_blocks(blocks: &[Block], expected: &[&[u8]]) -> bool {
    if blocks.len() != expected.len() {
        return false;
    }
    for (block, points) in blocks.iter().zip(expected) {
        let mut other = Block::empty();
        for p in points.iter() {
            if *p < 128 {
                other.insert(Point(*p));
            }
        }
        if *block != other {
            return false;
        }
    }
    true
}

// The next designs have these base blocks.
fn assert_bases<L: Ledger>(
    rt: &impl Abort,
    alloc: Global,
    designs: &mut Designs<'_>,
    steps: &mut Steps<L>,
    expected: &[&[&[u8]]],
) {
    for bases in expected {
        let mut budget = 1_000_000;
        match designs.next(&mut budget, steps) {
            Turn::Design => {
                let reps = listed_reps(alloc, designs).expect(rt, "memory");
                assert!(rt; are_blocks(&reps, bases));
            }
            _ => assert!(rt; false),
        }
    }
}

// The affine planes of nine points that all translations of a product of two groups of 3 leave as they are: of nine the first three, in each of which 0 1 2 makes a short orbit.
fn assert_planes<L: Ledger>(rt: &impl Abort, alloc: Global, blank: Blank)
    requires name { blank.name ≡ L.name }
    requires parts { blank.parts ≡ L.parts }
    requires some { 0 < blank.parts }
{
    let mut steps = Steps::<L>::new(blank);
    let matrix = matrix_of(rt, alloc, "group 3 3\nk 3\nlambda 1\n");
    let designs = Designs::start(alloc, &matrix, Rules::Divisor, &mut steps);
    let mut designs = designs.expect(rt, "memory");
    let expected: [&[&[u8]]; 3] = [
        &[&[0, 1, 2], &[0, 3, 6], &[0, 4, 8], &[0, 5, 7]],
        &[&[0, 1, 2], &[0, 3, 7]],
        &[&[0, 1, 2], &[0, 3, 8]],
    ];
    assert_bases(rt, alloc, &mut designs, &mut steps, &expected);
}

#[test]
fn planes_of_nine_points_begin_with_a_short_orbit(rt: HostRuntime) {
    assert_planes::<Brand>(&rt, rt.alloc(), Blank::new(1));
}

// The Fano plane of the residues by 7 that has 0 1 3.
fn assert_first<L: Ledger>(rt: &impl Abort, alloc: Global, blank: Blank)
    requires name { blank.name ≡ L.name }
    requires parts { blank.parts ≡ L.parts }
    requires some { 0 < blank.parts }
{
    let mut steps = Steps::<L>::new(blank);
    let matrix = matrix_of(rt, alloc, "group 7\nk 3\nlambda 1\n");
    let mut budget = 1;
    let first = first_design(alloc, &matrix, Rules::Plain, &mut budget, &mut steps);
    assert!(rt; first.expect(rt, "memory").is_none());
    budget = 4;
    let first = first_design(alloc, &matrix, Rules::Plain, &mut budget, &mut steps);
    let first = first.expect(rt, "memory").expect(rt, "a design");
    let fano: [&[u8]; 7] = [
        &[0, 1, 3],
        &[0, 2, 6],
        &[0, 4, 5],
        &[1, 2, 4],
        &[1, 5, 6],
        &[2, 3, 5],
        &[3, 4, 6],
    ];
    assert!(rt; are_blocks(&first, &fano));
}

#[test]
fn the_first_plane_of_seven_points_has_0_1_3(rt: HostRuntime) {
    assert_first::<Brand>(&rt, rt.alloc(), Blank::new(1));
}

// The 840 planes of nine points, where each block is a base block.
fn count_planes<L: Ledger>(rt: &impl Abort, alloc: Global, blank: Blank) -> u32
    requires name { blank.name ≡ L.name }
    requires parts { blank.parts ≡ L.parts }
    requires some { 0 < blank.parts }
{
    let mut steps = Steps::<L>::new(blank);
    let matrix = matrix_of(rt, alloc, "group 3 3\nshift none\nk 3\nlambda 1\n");
    let designs = Designs::start(alloc, &matrix, Rules::Divisor, &mut steps);
    let mut designs = designs.expect(rt, "memory");
    let mut budget = 1_000_000;
    let mut count: u32 = 0;
    for _ in 0..1000u32 {
        match designs.next(&mut budget, &mut steps) {
            Turn::Design => {
                let reps = listed_reps(alloc, &designs).expect(rt, "memory");
                let blocks = listed_blocks(alloc, &designs).expect(rt, "memory");
                assert_eq!(rt; reps.len(), 12);
                assert!(rt; reps.as_slice() == blocks.as_slice());
                count = count.wrapping_add(1);
            }
            _ => return count,
        }
    }
    count
}

#[test]
fn nine_points_have_840_planes(rt: HostRuntime) {
    let count = count_planes::<Brand>(&rt, rt.alloc(), Blank::new(1));
    assert_eq!(rt; count, 840);
}
