// The numbers of the orbits of pairs of points, in a table.
ghost use Rattle.std.specs.Prelude.{◌≡◌, ◌<◌, ◌≤◌, ◌*◌, ◌+◌, ◌==◌, ◌∷◌, [], ℕ, List, length, slice_get, slice_index, Some, IfOk, if◌then◌else◌};
ghost use Rattle.df_lists.specs.NumberSets.{IsSet};
ghost use Rattle.df_maps.specs.FullMaps.{point_count};
ghost use Rattle.df_maps.specs.Laws.{AreGroup};
ghost use Rattle.df_orbits.specs.Orbits.{are_in_one_orbit, pair_orbits, listed_representatives, representative_of, orbit_number};

use crate::OutOfMemory;
use crate::images::Images;
use crate::orbits::Orbits;
use df_maps::Maps;
use df_subsets::{Block, Point};
use std::alloc::Global;
use std::marker::Model;

/// The numbers of the orbits of all pairs of points under a group of maps, each by one look, and seen as these maps.
#[derive(Drop)]
pub struct PairNumbers {
    maps: Maps,
    points: u8,
    numbers: Vec<u32>,
}

impl Model for PairNumbers {
    ghost use Rattle.df_maps.specs.FullMaps.{MapGroup};

    ghost Value = { MapGroup };

    ghost use Rattle.df_orbits.specs.LookupTables.{AreNumbered};

    ghost view = { λ a. a.maps };

    ghost invariant = { λ a. AreNumbered a.maps a.points a.numbers.items };
}

impl PairNumbers {
    /// The numbers of the orbits `pairs`, which are those of pairs under the maps of this table. They take at most 64 KiB.
    pub fn new(alloc: Global, images: &Images, pairs: &Orbits) -> Result<PairNumbers, OutOfMemory>
        requires orbits { pairs.now ≡ pair_orbits images.now }
        ensures { IfOk result (λ numbers. numbers ≡ images.now) }
    {
        let points = images.points();
        let width = usize::from(points);
        let mut numbers = vec![in alloc; 0; width * width]?;
        for i in 0..pairs.len() {
            number_orbit(&mut numbers, images, &pairs.rep(i), i as u32);
        }
        Ok(PairNumbers {
            maps: images.maps(),
            points,
            numbers,
        })
    }

    /// The number of the orbit of the pair of p and q among the orbits of pairs, from 0. The points lie below the number of points, p before q.
    pub fn number_of(&self, p: Point, q: Point) -> usize
        requires order { p < q }
        requires points { q < point_count self.now }
        ensures number { result ≡ orbit_number self.now (pair_orbits self.now) (p ∷ q ∷ []) }
        ensures within { result < length (pair_orbits self.now) }
        ensures representative { slice_get (listed_representatives (pair_orbits self.now)) result ≡ Some (representative_of self.now (p ∷ q ∷ [])) }
        ensures orbit { (i : ℕ) (b : List ℕ) → slice_get (listed_representatives (pair_orbits self.now)) i ≡ Some b → are_in_one_orbit self.now (p ∷ q ∷ []) b ≡ (i == result) }
    {
        self.numbers[usize::from(p.0) * usize::from(self.points) + usize::from(q.0)] as usize
    }
}

// Writes a number for each image of a pair.
fn number_orbit(numbers: &mut [u32], images: &Images, pair: &Block, number: u32)
    requires long { length numbers.old ≡ point_count images.now * point_count images.now }
    requires pair { IsSet (point_count images.now) pair.now }
    requires two { length pair.now ≡ 2 }
    ensures long { length numbers.new ≡ length numbers.old }
    ensures written { (p q : ℕ) → p < q → q < point_count images.now → slice_index numbers.new (p * point_count images.now + q)
        ≡ (if are_in_one_orbit images.now pair.now (p ∷ q ∷ []) then number else slice_index numbers.old (p * point_count images.now + q)) }
{
    let points = pair.points();
    let width = usize::from(images.points());
    for i in 0..images.count() {
        let a = usize::from(images.image_point(i, points[0]).0);
        let b = usize::from(images.image_point(i, points[1]).0);
        numbers[a * width + b] = number;
        numbers[b * width + a] = number;
    }
}
