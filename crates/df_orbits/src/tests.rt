// What no clause says: that each call succeeds, and values worked out by hand.

use super::{
    Images, OrbitError, PairNumbers, orbits_of_pairs, pair_orbits, sized_orbits, subset_orbits,
};
use df_group::{Elem, Shape, Subgroup};
use df_maps::Maps;
use df_subsets::{Block, Point};
use std::process::Abort;

// All the maps with one multiplier, if it is one and there aren't too many points.
fn made(shape: &Shape, mult: u16) -> Option<Maps> {
    if !shape.is_unit(u32::from(mult)) {
        return None;
    }
    if shape.order() > 128 {
        return None;
    }
    let whole = Subgroup::generate(shape, &[Elem(1)]);
    Some(Maps::new(shape, 0, &whole, &[mult]))
}

fn cyclic(rt: &impl Abort, order: u16, mult: u16) -> Maps {
    let shape = Shape::new(&[order]).expect(rt, "a cyclic group");
    made(&shape, mult).expect(rt, "a unit")
}

fn block(rt: &impl Abort, points: &[Point]) -> Block {
    Block::from_points(points).expect(rt, "different points below 128")
}

// The differences of two residues by 7 are 1, 2 or 3, up to their sign.
#[test]
fn lists_pairs_of_seven(rt: HostRuntime) {
    let maps = cyclic(&rt, 7, 6);
    let pairs = pair_orbits(rt.alloc(), &maps).expect(&rt, "ample memory");
    assert!(rt; pairs.len() == 3);
    assert!(rt; pairs.rep(2) == block(&rt, &[Point(0), Point(3)]));
    assert_eq!(rt; pairs.size(0), 7);
}

// The same differences: 5 is 2 up to its sign, and 4 is 3.
#[test]
fn numbers_pairs_of_seven(rt: HostRuntime) {
    let maps = cyclic(&rt, 7, 6);
    assert!(rt; maps.points() == 7);
    let images = Images::new(rt.alloc(), &maps).expect(&rt, "ample memory");
    let pairs = orbits_of_pairs(rt.alloc(), &images).expect(&rt, "ample memory");
    let numbers = PairNumbers::new(rt.alloc(), &images, &pairs).expect(&rt, "ample memory");
    assert_eq!(rt; numbers.number_of(Point(0), Point(1)), 0);
    assert_eq!(rt; numbers.number_of(Point(1), Point(6)), 1);
    assert_eq!(rt; numbers.number_of(Point(2), Point(6)), 2);
    assert_eq!(rt; numbers.number_of(Point(5), Point(6)), 0);
}

// 35 triples: 0 1 2, 0 1 4 and 0 2 4 go to themselves under a map x -> h - x, so that their orbits have 7.
#[test]
fn lists_triples_of_seven(rt: HostRuntime) {
    let maps = cyclic(&rt, 7, 6);
    assert!(rt; maps.points() == 7);
    let triples = subset_orbits(rt.alloc(), &maps, 3).expect(&rt, "ample memory");
    assert!(rt; triples.len() == 4);
    assert!(rt; triples.rep(0) == block(&rt, &[Point(0), Point(1), Point(2)]));
    assert!(rt; triples.rep(1) == block(&rt, &[Point(0), Point(1), Point(3)]));
    assert!(rt; triples.rep(2) == block(&rt, &[Point(0), Point(1), Point(4)]));
    assert!(rt; triples.rep(3) == block(&rt, &[Point(0), Point(2), Point(4)]));
    assert_eq!(rt; triples.size(0), 7);
    assert_eq!(rt; triples.size(1), 14);
    assert_eq!(rt; triples.size(2), 7);
    assert_eq!(rt; triples.size(3), 7);
}

// 84 triples by 9: nine orbits of 9, and that of 0 3 6, which has 3.
#[test]
fn finds_a_short_orbit(rt: HostRuntime) {
    let maps = cyclic(&rt, 9, 1);
    assert!(rt; maps.points() == 9);
    let triples = subset_orbits(rt.alloc(), &maps, 3).expect(&rt, "ample memory");
    assert!(rt; triples.len() == 10);
    assert!(rt; triples.rep(9) == block(&rt, &[Point(0), Point(3), Point(6)]));
    assert_eq!(rt; triples.size(9), 3);
}

// 30 points have 5,852,925 blocks of 8.
#[test]
fn refuses_too_many_blocks(rt: HostRuntime) {
    let maps = cyclic(&rt, 30, 1);
    assert!(rt; maps.points() == 30);
    match subset_orbits(rt.alloc(), &maps, 8) {
        Ok(_) => assert!(rt; false),
        Err(e) => assert!(rt;
            e == OrbitError::TooManySubsets {
                points: 30,
                size: 8
            }
        ),
    }
}

// Pairs and triples of seven together, as lists: 0 1 before 0 1 2, and so on.
#[test]
fn lists_two_sizes_together(rt: HostRuntime) {
    let maps = cyclic(&rt, 7, 6);
    assert!(rt; maps.points() == 7);
    let both = sized_orbits(rt.alloc(), &maps, &[2, 3]).expect(&rt, "ample memory");
    assert!(rt; both.len() == 7);
    assert!(rt; both.rep(0) == block(&rt, &[Point(0), Point(1)]));
    assert!(rt; both.rep(1) == block(&rt, &[Point(0), Point(1), Point(2)]));
    assert!(rt; both.rep(4) == block(&rt, &[Point(0), Point(2)]));
    assert!(rt; both.rep(6) == block(&rt, &[Point(0), Point(3)]));
    assert_eq!(rt; both.size(2), 14);
}
