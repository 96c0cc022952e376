// Lists of orbits against a plain filter, which computes images by remainders alone and looks at sets of points as numbers.
ghost use Rattle.std.specs.Prelude.{◌≡◌, ◌≤◌, ◌<◌, length};
ghost use Rattle.df_lists.specs.NumberSets.{IsSet};
ghost use Rattle.df_maps.specs.FullMaps.{point_count};

use crate::{Images, PairNumbers, orbits_of_pairs, pair_orbits, subset_orbits};
use df_group::{Elem, Shape, Subgroup};
use df_maps::Maps;
use df_subsets::{Block, Point, binomial, unrank};
use std::alloc::Global;
use std::process::Abort;

/// A group of first x width elements, and maps of its elements and of further points.
#[derive(Drop)]
struct Plain {
    first: u32,
    width: u32,
    products: Vec<u32>,
    shifts: Vec<u32>,
}

impl Plain {
    fn order(&self) -> u32 {
        self.first.wrapping_mul(self.width)
    }

    // mx + h for an element x; other points stay.
    fn carry(&self, rt: &impl Abort, m: u32, h: u32, x: u32) -> u32 {
        assert!(rt; self.first > 0 && self.width > 0);
        if x >= self.order() {
            return x;
        }
        let row = m.wrapping_mul(x / self.width).wrapping_add(h / self.width) % self.first;
        let column = m.wrapping_mul(x % self.width).wrapping_add(h % self.width) % self.width;
        row.wrapping_mul(self.width).wrapping_add(column)
    }

    fn image(&self, rt: &impl Abort, m: u32, h: u32, set: u32) -> u32 {
        let mut image = 0;
        for x in 0..16 {
            if (set >> x) & 1 == 1 {
                image |= 1u32.wrapping_shl(self.carry(rt, m, h, x));
            }
        }
        image
    }

    // The different images of a set.
    fn images(&self, rt: &impl Abort, alloc: Global, set: u32) -> Vec<u32> {
        let mut images = Vec::new(alloc);
        for m in &self.products {
            for h in &self.shifts {
                let image = self.image(rt, *m, *h, set);
                if !images.contains(&image) {
                    images.push(image).expect(rt, "memory");
                }
            }
        }
        images
    }
}

// Of two sets with as many points that one comes first which has the first point in which they differ.
fn earliest(images: &[u32]) -> u32 {
    let mut earliest: u32 = 0;
    for image in images {
        if image.reverse_bits() > earliest.reverse_bits() {
            earliest = *image;
        }
    }
    earliest
}

fn set_of(block: &Block) -> u32 {
    let mut set = 0;
    for p in 0..16u8 {
        if block.has(Point(p)) {
            set |= 1u32 << p;
        }
    }
    set
}

// The residues of the products of powers of two multipliers, and the sums of two elements' multiples.
fn computed(
    rt: &impl Abort,
    alloc: Global,
    first: u32,
    width: u32,
    mults: (u16, u16),
    generators: (u8, u8),
) -> Plain {
    let mut plain = Plain {
        first,
        width,
        products: Vec::new(alloc),
        shifts: Vec::new(alloc),
    };
    let order = plain.order();
    assert!(rt; order > 0);
    for i in 0..144u32 {
        let one = power(u32::from(mults.0), i / 12, order);
        let m = one.wrapping_mul(power(u32::from(mults.1), i % 12, order)) % order;
        if !plain.products.contains(&m) {
            plain.products.push(m).expect(rt, "memory");
        }
        let one = plain.carry(rt, i / 12, 0, u32::from(generators.0));
        let h = plain.carry(rt, i % 12, one, u32::from(generators.1));
        if !plain.shifts.contains(&h) {
            plain.shifts.push(h).expect(rt, "memory");
        }
    }
    plain
}

fn power(m: u32, exponent: u32, order: u32) -> u32
    requires { 0 < order }
{
    let mut power = 1;
    for _ in 0..exponent {
        power = m.wrapping_mul(power) % order;
    }
    power
}

// All the maps, if the multipliers are prime to the exponent and the elements lie below the order.
fn made(shape: &Shape, fixed: u8, mults: (u16, u16), generators: (u8, u8)) -> Option<Maps> {
    if !shape.is_unit(u32::from(mults.0)) || !shape.is_unit(u32::from(mults.1)) {
        return None;
    }
    if generators.0 >= shape.order() || generators.1 >= shape.order() {
        return None;
    }
    if u32::from(shape.order()) + u32::from(fixed) > 128 {
        return None;
    }
    let shift = Subgroup::generate(shape, &[Elem(generators.0), Elem(generators.1)]);
    Some(Maps::new(shape, fixed, &shift, &[mults.0, mults.1]))
}

// The block that stands at a place among those of its size.
fn placed(rt: &impl Abort, maps: &Maps, size: u8, place: u128) -> Block
    ensures block { IsSet (point_count maps.now) result }
    ensures size { length result ≡ size }
{
    assert!(rt; 1 <= size);
    assert!(rt; size <= maps.points());
    assert!(rt; place < binomial(maps.points(), size));
    unrank(maps.points(), size, place)
}

// The orbits of the blocks of one size are those that the filter keeps, in its order, and each block has the number of its orbit.
fn compare(rt: &impl Abort, alloc: Global, maps: &Maps, plain: &Plain, size: u8) {
    let points = maps.points();
    assert!(rt; 2 <= size);
    assert!(rt; size <= points);
    assert!(rt; points <= 16);
    let orbits = subset_orbits(alloc, maps, size).expect(rt, "ample memory");
    let mut representatives = Vec::new(alloc);
    let mut place: u128 = 0;
    for number in (0..1u32 << points).rev() {
        let set = number.reverse_bits() >> (32 - points);
        if set.count_ones() != u32::from(size) {
            continue;
        }
        let block = placed(rt, maps, size, place);
        place = place.wrapping_add(1);
        assert!(rt; set_of(&block) == set);
        let images = plain.images(rt, alloc, set);
        let first = earliest(images.as_slice());
        if first == set {
            assert!(rt; representatives.len() < orbits.len());
            assert!(rt; orbits.rep(representatives.len()) == block);
            assert!(rt; orbits.size(representatives.len()) as usize == images.len());
            representatives.push(set).expect(rt, "memory");
        }
        assert!(rt; representatives.get(orbits.number_of(maps, &block)) == Some(&first));
    }
    assert!(rt; representatives.len() == orbits.len());
}

// The numbers of pairs are those that the list of orbits gives.
fn compare_pairs(rt: &impl Abort, alloc: Global, maps: &Maps) {
    let pairs = pair_orbits(alloc, maps).expect(rt, "ample memory");
    let images = Images::new(alloc, maps).expect(rt, "ample memory");
    let listed = orbits_of_pairs(alloc, &images).expect(rt, "ample memory");
    let numbers = PairNumbers::new(alloc, &images, &listed).expect(rt, "ample memory");
    assert!(rt; 2 <= maps.points());
    for place in 0..binomial(maps.points(), 2) {
        let block = placed(rt, maps, 2, place);
        let points = block.points();
        assert!(rt; points.len() == 2);
        let (p, q) = (points[0], points[1]);
        assert!(rt; p < q);
        assert!(rt; q.0 < maps.points());
        assert!(rt; numbers.number_of(p, q) == pairs.number_of(maps, &block));
    }
}

// How many sizes of blocks were compared.
fn compare_sizes(rt: &impl Abort, alloc: Global, maps: &Maps, plain: &Plain) -> u32 {
    let mut compared: u32 = 0;
    for size in 2..5 {
        if size <= maps.points() {
            compare(rt, alloc, maps, plain, size);
            compared = compared.wrapping_add(1);
        }
    }
    compared
}

// Cyclic groups and products of two, no shifts, those of a proper subgroup and all, up to two fixed points, one multiplier and two.
#[test]
fn orbits_are_those_of_a_plain_filter(rt: HostRuntime) {
    let alloc = rt.alloc();
    let mut compared: u32 = 0;
    for (first, second) in [(5, 1), (6, 1), (7, 1), (8, 1), (2, 2), (3, 3), (2, 4)] {
        let shape = if second == 1 {
            Shape::new(&[first])
        } else {
            Shape::new(&[first, second])
        };
        let shape = shape.expect(&rt, "a group");
        for (mults, generators) in [
            ((1, 1), (0, 0)),
            ((1, 1), (1, 2)),
            ((5, 5), (2, 0)),
            ((3, 5), (0, 0)),
            ((2, 4), (3, 0)),
            ((3, 5), (1, 4)),
        ] {
            let Some(maps) = made(&shape, generators.0 % 3, mults, generators) else {
                continue;
            };
            let plain = computed(
                &rt,
                alloc,
                u32::from(first),
                u32::from(second),
                mults,
                generators,
            );
            compared = compared.wrapping_add(compare_sizes(&rt, alloc, &maps, &plain));
            compare_pairs(&rt, alloc, &maps);
        }
    }
    assert!(rt; compared >= 50);
}
