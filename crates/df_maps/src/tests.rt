// What no clause says: that each call succeeds, and values worked out by hand.
ghost use Rattle.df_lists.specs.NumberSets.{IsSet};
ghost use Rattle.df_maps.specs.FullMaps.{point_count};

use super::Maps;
use df_group::{Elem, Shape, Subgroup};
use df_subsets::{Block, Point, binomial, unrank};
use std::process::Abort;

// All the maps with one multiplier, if it is one and there aren't too many points.
fn made(shape: &Shape, fixed: u8, mult: u16) -> Option<Maps> {
    if !shape.is_unit(u32::from(mult)) {
        return None;
    }
    if u32::from(shape.order()) + u32::from(fixed) > 128 {
        return None;
    }
    let whole = Subgroup::generate(shape, &[Elem(1)]);
    Some(Maps::new(shape, fixed, &whole, &[mult]))
}

fn cyclic(rt: &impl Abort, order: u16, mult: u16, fixed: u8) -> Maps {
    let shape = Shape::new(&[order]).expect(rt, "a cyclic group");
    made(&shape, fixed, mult).expect(rt, "a unit and few points")
}

// The block that stands at a place among those of its size.
fn placed(rt: &impl Abort, maps: &Maps, size: u8, place: u128) -> Block
    ensures { IsSet (point_count maps.now) result }
{
    assert!(rt; 1 <= size);
    assert!(rt; size <= maps.points());
    assert!(rt; place < binomial(maps.points(), size));
    unrank(maps.points(), size, place)
}

fn block(rt: &impl Abort, points: &[Point]) -> Block {
    Block::from_points(points).expect(rt, "different points below 128")
}

// x -> x + h and x -> h - x on the seven residues: 14 maps.
#[test]
fn moves_points_of_seven(rt: HostRuntime) {
    let maps = cyclic(&rt, 7, 6, 0);
    assert!(rt; maps.points() == 7);
    assert!(rt; maps.count() == 14);
    assert!(rt; maps.image_point(0, Point(5)) == Point(5));
    assert!(rt; maps.image_point(3, Point(5)) == Point(1));
    assert!(rt; maps.image_point(7, Point(5)) == Point(2));
    assert!(rt; maps.image_point(10, Point(5)) == Point(5));
}

// After the 15 triples with 0 come 1 2 3 and 1 2 4, which goes to 0 1 3 under x - 1 and to 3 5 6 under -x.
#[test]
fn finds_the_least_image(rt: HostRuntime) {
    let maps = cyclic(&rt, 7, 6, 0);
    assert!(rt; maps.count() == 14);
    let fano = placed(&rt, &maps, 3, 16);
    assert!(rt; fano == block(&rt, &[Point(1), Point(2), Point(4)]));
    assert!(rt; maps.image_block(6, &fano) == block(&rt, &[Point(0), Point(1), Point(3)]));
    assert!(rt; maps.image_block(7, &fano) == block(&rt, &[Point(3), Point(5), Point(6)]));
    assert!(rt; !maps.is_least(&fano));
    assert!(rt; maps.least_image(&fano) == block(&rt, &[Point(0), Point(1), Point(3)]));
    assert!(rt; maps.is_least(&maps.least_image(&fano)));
    assert_eq!(rt; maps.orbit_size(&fano), 14);
    assert_eq!(rt; maps.orbit_size(&placed(&rt, &maps, 3, 0)), 7);
}

// 2 has the powers 1, 2 and 4 by 7, and each map leaves the two fixed points 7 and 8 where they are.
#[test]
fn multiplies_multipliers_and_keeps_fixed_points(rt: HostRuntime) {
    let maps = cyclic(&rt, 7, 2, 2);
    assert!(rt; maps.points() == 9);
    assert!(rt; maps.count() == 21);
    assert!(rt; maps.image_point(14, Point(2)) == Point(1));
    assert!(rt; maps.image_point(20, Point(8)) == Point(8));
    assert_eq!(rt; maps.orbit_size(&placed(&rt, &maps, 2, 35)), 1);
    assert_eq!(rt; maps.orbit_size(&placed(&rt, &maps, 2, 7)), 7);
    assert_eq!(rt; maps.orbit_size(&placed(&rt, &maps, 3, 29)), 7);
}
