// The orbits of blocks under a group of maps, by their representatives: the blocks that no map carries to an earlier one.
// They are found by going through all blocks of a size in order, with a mark for each block that an earlier one was carried to.
// A block without a mark is the first of its orbit; its images are marked, and those that are the block itself are counted,
// since the number of maps divided by that is the size of the orbit. So the maps are gone through once for each orbit, and not
// once for each block, at the cost of one bit a block.
ghost use Rattle.std.specs.Prelude.{◌≡◌, ◌==◌, ◌||◌, ◌-◌, ◌*◌, ◌<◌, ◌≤◌, ◌∷◌, ◌++◌, [], ℕ, true, false, List, length, map, slice_get, slice_index_or, Some, Err, All, IfOk, IfErr, sum_by};
ghost use Rattle.std.specs.List.Sorted.{IsStrictlyIncreasing};
ghost use Rattle.df_lists.specs.Membership.{In, count};
ghost use Rattle.df_lists.specs.NumberSets.{IsSet};
ghost use Rattle.df_lists.specs.Orders.{IsSorted};
ghost use Rattle.df_subsets.specs.Blocks.{before};
ghost use Rattle.df_subsets.specs.Subsets.{subsets, binomial as binomial_of};
ghost use Rattle.df_maps.specs.FullMaps.{point_count};
ghost use Rattle.df_orbits.specs.MarkedPlaces.{is_marked};
ghost use Rattle.df_orbits.specs.Orbits.{are_in_one_orbit, orbit_size_in, orbits_with_sizes, pair_orbits, block_orbits, listed_representatives, orbit_sizes, representative_of, representative_at, size_at, orbit_number};
ghost use Rattle.df_orbits.specs.declared.orbits.OrbitError.TheVariants.{TooManySubsets, TooManySummed, OutOfMemory as OutOfMemoryError};

use crate::OutOfMemory;
use crate::images::Images;
use crate::marks::Marks;
use crate::places::Places;
use df_maps::Maps;
use df_subsets::{Block, binomial, first, next};
use std::alloc::{AllocError, Global};
use std::marker::Model;

/// The most blocks of one size whose orbits are listed.
pub const MOST_SUBSETS: u128 = 2_000_000;

/// The most blocks of several sizes, counted together, whose orbits are listed.
pub const MOST_SUMMED: u128 = 8_000_000;

#[derive(Clone, Copy, PartialEq, Eq, PartialOrd, Ord)]
struct Orbit {
    block: Block,
    size: u32,
}

/// The orbits of blocks under a group of maps, in the order of their representatives.
#[derive(Drop)]
pub struct Orbits {
    found: Vec<Orbit>,
}

/// Why the orbits of blocks weren't listed.
#[derive(Clone, Copy, Debug, PartialEq, Eq)]
pub enum OrbitError {
    /// There are more than `MOST_SUBSETS` blocks of one size.
    TooManySubsets { points: u8, size: u8 },
    /// Out of memory.
    OutOfMemory,
    /// There are more than `MOST_SUMMED` blocks of the sizes together.
    TooManySummed { points: u8, sum: u128 },
}

impl Model for Orbits {
    ghost use Rattle.std.specs.Prelude.{List, ℕ, map};

    ghost Value = { List (List ℕ × ℕ) };

    ghost view = { λ o. map (λ f. (f.block, f.size)) o.found.items };
}

impl Orbits {
    /// How many orbits there are.
    pub fn len(&self) -> usize
        ensures { result ≡ length self.now }
    {
        self.found.len()
    }

    /// The representative of orbit number `i`, from 0 and below the number of orbits.
    pub fn rep(&self, i: usize) -> Block
        requires { i < length self.now }
        ensures { result ≡ representative_at self.now i }
    {
        self.found[i].block
    }

    /// How many blocks orbit number `i` has, from 0 and below the number of orbits.
    pub fn size(&self, i: usize) -> u32
        requires { i < length self.now }
        ensures { result ≡ size_at self.now i }
    {
        self.found[i].size
    }

    /// The number of the orbit that a block is in, from 0.
    /// These are the maps that the orbits were made with, and the block has one of the sizes and lies below the number of points.
    /// A representative is found by halving alone; for another block its images under all maps are gone through.
    pub fn number_of(&self, maps: &Maps, block: &Block) -> usize
        requires making { (sizes : List ℕ) × (self.now ≡ block_orbits maps.now sizes) × In sizes (length block.now) }
        requires block { IsSet (point_count maps.now) block.now }
        ensures number { result ≡ orbit_number maps.now self.now block.now }
        ensures within { result < length self.now }
        ensures representative { slice_get (listed_representatives self.now) result ≡ Some (representative_of maps.now block.now) }
        ensures orbit { (i : ℕ) (b : List ℕ) → slice_get (listed_representatives self.now) i ≡ Some b → are_in_one_orbit maps.now block.now b ≡ (i == result) }
    {
        maps.points();
        let place = self.place_among(block);
        if place < self.found.len() && self.found[place].block == *block {
            return place;
        }
        self.place_among(&maps.least_image(block))
    }

    // How many representatives are earlier than a block.
    fn place_among(&self, block: &Block) -> usize
        requires { IsSorted before (listed_representatives self.now) }
        ensures within { result ≤ length self.now }
        ensures earlier { (i : ℕ) → i < result → before (slice_index_or (listed_representatives self.now) i []) block.now ≡ true }
        ensures later { (i : ℕ) → result ≤ i → i < length self.now → before (slice_index_or (listed_representatives self.now) i []) block.now ≡ false }
    {
        let mut low = 0;
        let mut high = self.found.len();
        while low < high {
            let middle = low + (high - low) / 2;
            if self.found[middle].block < *block {
                low = middle + 1;
            } else {
                high = middle;
            }
        }
        low
    }
}

impl From<AllocError> for OrbitError {
    ghost from_gives = { λ _ e. e ≡ OutOfMemoryError };

    fn from(_: AllocError) -> Self {
        OrbitError::OutOfMemory
    }
}

/// The orbits of pairs of points.
pub fn pair_orbits(alloc: Global, maps: &Maps) -> Result<Orbits, OutOfMemory>
    ensures pairs { IfOk result (λ orbits. orbits ≡ pair_orbits maps.now) }
    ensures sized { IfOk result (λ orbits. orbits ≡ block_orbits maps.now (2 ∷ [])) }
{
    let images = Images::new(alloc, maps)?;
    orbits_of_pairs(alloc, &images)
}

/// The orbits of pairs of points under the maps of a table that is there already.
pub fn orbits_of_pairs(alloc: Global, images: &Images) -> Result<Orbits, OutOfMemory>
    ensures pairs { IfOk result (λ orbits. orbits ≡ pair_orbits images.now) }
    ensures sized { IfOk result (λ orbits. orbits ≡ block_orbits images.now (2 ∷ [])) }
{
    images.points();
    let mut found = Vec::new(alloc);
    find(alloc, images, 2, &mut found)?;
    Ok(Orbits { found })
}

/// The orbits of the blocks of `size` points, from 2 to the number of points.
/// `TooManySubsets` exactly where there are more than `MOST_SUBSETS` such blocks.
pub fn subset_orbits(alloc: Global, maps: &Maps, size: u8) -> Result<Orbits, OrbitError>
    requires some { 2 ≤ size }
    requires within { size ≤ point_count maps.now }
    ensures blocks { IfOk result (λ orbits. orbits ≡ orbits_with_sizes maps.now (subsets (point_count maps.now) size)) }
    ensures sized { IfOk result (λ orbits. orbits ≡ block_orbits maps.now (size ∷ [])) }
    ensures many { MOST_SUBSETS < binomial_of (point_count maps.now) size → result ≡ Err (TooManySubsets (point_count maps.now) size) }
    ensures few { binomial_of (point_count maps.now) size ≤ MOST_SUBSETS → IfErr result (λ e. e ≡ OutOfMemoryError) }
{
    let points = maps.points();
    if binomial(points, size) > MOST_SUBSETS {
        return Err(OrbitError::TooManySubsets { points, size });
    }
    let images = Images::new(alloc, maps)?;
    let mut found = Vec::new(alloc);
    find(alloc, &images, size, &mut found)?;
    Ok(Orbits { found })
}

/// The orbits of all blocks that have one of the sizes, numbered together. The sizes increase strictly from 2 to the number of points, and there is one.
/// `TooManySummed` exactly where there are more than `MOST_SUMMED` such blocks.
pub fn sized_orbits(alloc: Global, maps: &Maps, sizes: &[u8]) -> Result<Orbits, OrbitError>
    requires some { 0 < length sizes.now }
    requires rising { IsStrictlyIncreasing sizes.now }
    requires range { All (λ k. (2 ≤ k) × (k ≤ point_count maps.now)) sizes.now }
    ensures sized { IfOk result (λ orbits. orbits ≡ block_orbits maps.now sizes.now) }
    ensures many { MOST_SUMMED < sum_by (binomial_of (point_count maps.now)) sizes.now → result ≡ Err (TooManySummed (point_count maps.now) (sum_by (binomial_of (point_count maps.now)) sizes.now)) }
    ensures few { sum_by (binomial_of (point_count maps.now)) sizes.now ≤ MOST_SUMMED → IfErr result (λ e. e ≡ OutOfMemoryError) }
{
    let points = maps.points();
    let sum = count_blocks(points, sizes);
    if sum > MOST_SUMMED {
        return Err(OrbitError::TooManySummed { points, sum });
    }
    let images = Images::new(alloc, maps)?;
    match orbits_of_sizes(alloc, &images, sizes) {
        Ok(orbits) => Ok(orbits),
        Err(_) => Err(OrbitError::OutOfMemory),
    }
}

/// The orbits of all blocks that have one of the sizes, numbered together, under the maps of a table that is there already.
/// The sizes increase strictly from 2 to the number of points, there is one, and there are at most `MOST_SUMMED` such blocks.
pub fn orbits_of_sizes(alloc: Global, images: &Images, sizes: &[u8]) -> Result<Orbits, OutOfMemory>
    requires some { 0 < length sizes.now }
    requires rising { IsStrictlyIncreasing sizes.now }
    requires range { All (λ k. (2 ≤ k) × (k ≤ point_count images.now)) sizes.now }
    requires few { sum_by (binomial_of (point_count images.now)) sizes.now ≤ MOST_SUMMED }
    ensures { IfOk result (λ orbits. orbits ≡ block_orbits images.now sizes.now) }
{
    images.points();
    let mut found = Vec::new(alloc);
    for size in sizes {
        find(alloc, images, *size, &mut found)?;
    }
    found.sort()?;
    Ok(Orbits { found })
}

/// How many blocks of points below `points` have one of the sizes, which increase strictly from 2 to the number of points.
pub fn count_blocks(points: u8, sizes: &[u8]) -> u128
    requires small { points ≤ 128 }
    requires rising { IsStrictlyIncreasing sizes.now }
    requires range { All (λ k. (2 ≤ k) × (k ≤ points)) sizes.now }
    ensures { result ≡ sum_by (binomial_of points) sizes.now }
{
    let mut sum = 0;
    for size in sizes {
        sum += binomial(points, *size);
    }
    sum
}

// Appends the orbits of the blocks of one size.
fn find(alloc: Global, images: &Images, size: u8, found: &mut Vec<Orbit>) -> Result<(), OutOfMemory>
    requires some { 1 ≤ size }
    requires within { size ≤ point_count images.now }
    requires few { binomial_of (point_count images.now) size ≤ MOST_SUMMED }
    ensures { IfOk result (λ _. map (λ f. (f.block, f.size)) found.new.items ≡ map (λ f. (f.block, f.size)) found.old.items ++ orbits_with_sizes images.now (subsets (point_count images.now) size)) }
{
    let points = images.points();
    let places = Places::new(alloc, points, size)?;
    let count = places.count();
    let mut marks = Marks::none(alloc, count)?;
    let mut block = first(points, size);
    for place in 0..count {
        block = stepped(points, &block, place);
        if marks.has(place) {
            continue;
        }
        let size = mark(&mut marks, images, &places, &block);
        found.push(Orbit { block, size })?;
    }
    Ok(())
}

// The block at a place: the first, or that after the block at the place before.
fn stepped(points: u8, block: &Block, place: usize) -> Block
    requires small { points ≤ 128 }
    requires some { 0 < length block.now }
    requires within { IsSet points block.now }
    requires before { slice_get (subsets points (length block.now)) (place - 1) ≡ Some block.now }
    requires below { place < binomial_of points (length block.now) }
    ensures place { slice_get (subsets points (length block.now)) place ≡ Some result }
    ensures block { IsSet points result }
    ensures size { length result ≡ length block.now }
{
    if place == 0 {
        return *block;
    }
    match next(points, block) {
        Some(following) => following,
        None => unreachable!(),
    }
}

// Marks the places of a block's images, and answers how many different images it has.
fn mark(marks: &mut Marks, images: &Images, places: &Places, block: &Block) -> u32
    requires block { IsSet (point_count images.now) block.now }
    requires places { places.now ≡ (point_count images.now, length block.now) }
    requires room { binomial_of (point_count images.now) (length block.now) ≤ 64 * length marks.old }
    ensures room { length marks.new ≡ length marks.old }
    ensures marks { (place : ℕ) → place < binomial_of (point_count images.now) (length block.now) → is_marked marks.new place
        ≡ (is_marked marks.old place || are_in_one_orbit images.now block.now (slice_index_or (subsets (point_count images.now) (length block.now)) place [])) }
    ensures size { result ≡ count (are_in_one_orbit images.now block.now) (subsets (point_count images.now) (length block.now)) }
{
    let points = block.points();
    let mut fixing = 0;
    for i in 0..images.count() {
        let image = images.image_block(i, points.as_slice());
        if image == *block {
            fixing += 1;
        }
        marks.put(places.rank(&image));
    }
    images.count() / fixing
}
