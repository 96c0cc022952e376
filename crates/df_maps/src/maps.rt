// The group of maps x -> mx + h as a value.
ghost use Rattle.std.specs.Prelude.{◌≡◌, ◌<◌, ◌≤◌, ◌+◌, ℕ, true, All, length, filter};
ghost use Rattle.std.specs.List.{range_with_len};
ghost use Rattle.df_lists.specs.Membership.{In, count};
ghost use Rattle.df_lists.specs.NumberSets.{has_member, IsSet};
ghost use Rattle.df_group.specs.Elements.{order_of};
ghost use Rattle.df_group.specs.Subgroups.{exponent_of, is_unit, IsSubgroup};
ghost use Rattle.df_subsets.specs.Blocks.{before};
ghost use Rattle.df_subsets.specs.Subsets.{subsets, same_list};
ghost use Rattle.df_acting.specs.Orbits.{in_one_orbit_by};
ghost use Rattle.df_acting.specs.Representatives.{is_representative, representative_by};
ghost use Rattle.df_maps.specs.FullMaps.{maps_of, point_count, full_maps, map_number, carried, image};
ghost use Rattle.df_maps.specs.Laws.{AreGroup};

use crate::products::residues_of_products;
use arrayvec::ArrayVec;
use df_group::{Elem, Shape, Subgroup, copied_items};
use df_subsets::{Block, Point};
use std::marker::Model;

/// The group of all maps x -> mx + h of the points, with m a product of multipliers and h in a subgroup.
#[derive(Drop)]
pub struct Maps {
    shape: Shape,
    fixed: u8,
    products: ArrayVec<u8, 128>,
    shifts: ArrayVec<Elem, 128>,
}

impl Model for Maps {
    ghost use Rattle.df_maps.specs.FullMaps.{MapGroup, IsMaps};

    ghost Value = { MapGroup };

    ghost view = { λ a. record { factors = a.shape; fixed = a.fixed; products = a.products.items; shifts = a.shifts.items } };

    ghost invariant = { λ a. IsMaps (record { factors = a.shape; fixed = a.fixed; products = a.products.items; shifts = a.shifts.items }) };
}

impl Maps {
    /// The maps x -> mx + h on the elements of the shape's group and on `fixed` fixed points, which each map leaves where they are.
    /// The m are all products of the multipliers `mults`, each prime to the exponent, and the h are the members of `shift`.
    /// There are at most 128 points in all.
    pub fn new(shape: &Shape, fixed: u8, shift: &Subgroup, mults: &[u16]) -> Maps
        requires small { order_of shape.now + fixed ≤ 128 }
        requires shift { IsSubgroup shape.now shift.now }
        requires units { All (λ m. is_unit (exponent_of shape.now) m ≡ true) mults.now }
        ensures { result ≡ maps_of shape.now fixed shift.now mults.now }
    {
        Maps {
            shape: shape.copied(),
            fixed,
            products: residues_of_products(shape.exponent(), mults),
            shifts: members_of(shape, shift),
        }
    }

    /// The same maps once more, without taking memory.
    pub fn copied(&self) -> Maps
        ensures { result ≡ self.now }
    {
        Maps {
            shape: self.shape.copied(),
            fixed: self.fixed,
            products: copied_items(self.products.as_slice()),
            shifts: copied_items(self.shifts.as_slice()),
        }
    }

    /// The number of points, from 2 to 128: the elements and the fixed points.
    pub fn points(&self) -> u8
        ensures points { result ≡ point_count self.now }
        ensures some { 2 ≤ result }
        ensures small { result ≤ 128 }
        ensures maps { AreGroup self.now }
    {
        self.shape.order() + self.fixed
    }

    /// The number of maps, at least 1 and at most 16,384. No two of them are equal.
    pub fn count(&self) -> u32
        ensures count { result ≡ length (full_maps self.now) }
        ensures maps { AreGroup self.now }
        ensures some { 0 < result }
        ensures small { result ≤ 16384 }
    {
        self.products.len() as u32 * self.shifts.len() as u32
    }

    /// Where map number `i`, below the count, carries a point below the number of points.
    /// Map number i is x -> mx + h with the (i div |H|)-th product as m and the (i mod |H|)-th member of H as h, both counted from 0.
    pub fn image_point(&self, i: u32, p: Point) -> Point
        requires number { i < length (full_maps self.now) }
        requires point { p < point_count self.now }
        ensures image { result ≡ carried self.now (map_number self.now i) p }
        ensures below { result < point_count self.now }
    {
        let (m, h) = self.numbered(i);
        self.carry(m, h, p)
    }

    /// The image of a block of points below the number of points under map number `i`, below the count.
    pub fn image_block(&self, i: u32, block: &Block) -> Block
        requires number { i < length (full_maps self.now) }
        requires block { IsSet (point_count self.now) block.now }
        ensures image { result ≡ image self.now (map_number self.now i) block.now }
        ensures block { IsSet (point_count self.now) result }
        ensures size { length result ≡ length block.now }
    {
        let (m, h) = self.numbered(i);
        let mut image = Block::empty();
        let points = block.points();
        for p in points.as_slice() {
            image.insert(self.carry(m, h, *p));
        }
        image
    }

    /// Whether no image of a block of points below the number of points is earlier than the block.
    pub fn is_least(&self, block: &Block) -> bool
        requires { IsSet (point_count self.now) block.now }
        ensures { result ≡ is_representative before (image self.now) (full_maps self.now) block.now }
    {
        for i in 0..self.count() {
            if self.image_block(i, block) < *block {
                return false;
            }
        }
        true
    }

    /// The earliest image of a block of points below the number of points.
    pub fn least_image(&self, block: &Block) -> Block
        requires { IsSet (point_count self.now) block.now }
        ensures image { result ≡ representative_by before (image self.now) (full_maps self.now) block.now }
        ensures maps { AreGroup self.now }
        ensures block { IsSet (point_count self.now) result }
        ensures size { length result ≡ length block.now }
    {
        let mut least = *block;
        for i in 0..self.count() {
            let image = self.image_block(i, block);
            if image < least {
                least = image;
            }
        }
        least
    }

    /// The number of different images of a block of points below the number of points.
    pub fn orbit_size(&self, block: &Block) -> u32
        requires { IsSet (point_count self.now) block.now }
        ensures { result ≡ count (in_one_orbit_by same_list (image self.now) (full_maps self.now) block.now) (subsets (point_count self.now) (length block.now)) }
    {
        let mut fixing = 0;
        for i in 0..self.count() {
            if self.image_block(i, block) == *block {
                fixing += 1;
            }
        }
        self.count() / fixing
    }

    // m and h of map number i.
    fn numbered(&self, i: u32) -> (u8, Elem)
        requires { i < length (full_maps self.now) }
        ensures map { result ≡ map_number self.now i }
        ensures shift { result.1 < order_of self.now.factors }
        ensures member { In (full_maps self.now) result }
        ensures small { point_count self.now ≤ 128 }
        ensures maps { AreGroup self.now }
    {
        let width = self.shifts.len() as u32;
        (
            self.products[(i / width) as usize],
            self.shifts[(i % width) as usize],
        )
    }

    // mp + h for an element p; each fixed point stays.
    fn carry(&self, m: u8, h: Elem, p: Point) -> Point
        requires shift { h < order_of self.now.factors }
        requires point { p < point_count self.now }
        ensures image { result ≡ carried self.now (m, h) p }
        ensures below { result < point_count self.now }
    {
        if p.0 >= self.shape.order() {
            return p;
        }
        let multiple = self.shape.times(u32::from(m), Elem(p.0));
        Point(self.shape.add(multiple, h).0)
    }
}

// The members of a subgroup, increasing.
fn members_of(shape: &Shape, subgroup: &Subgroup) -> ArrayVec<Elem, 128>
    ensures { result.items ≡ filter (has_member subgroup.now) (range_with_len 0 (order_of shape.now)) }
{
    let mut members = ArrayVec::new();
    for number in 0..shape.order() {
        if !subgroup.has(Elem(number)) {
            continue;
        }
        members.push(Elem(number));
    }
    members
}
