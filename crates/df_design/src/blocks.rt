// The blocks of a design, increasing and each once, without memory that grows.
//
// The design's blocks are the images of its base blocks under all maps, which come in no order and, where an orbit is short, more
// than once. So the images are passed and the earliest of those after the last block are held ready, at most `READY` of them: the
// place of each is found by halving. When as many are handed out, the images are passed again; where fewer were ready, they were
// all. A design of b base blocks under m maps costs one pass over its vector and m * b images for each `READY` blocks.
ghost use Rattle.std.specs.Prelude.{◌≡◌, ◌==◌, ◌&&◌, ◌∷◌, [], ◌⊎◌, ◌-◌, ℕ, List, length, slice_index_or, MatchOption, MatchResult};
ghost use Rattle.df_lists.specs.Membership.{In};
ghost use Rattle.df_lists.specs.Orders.{IsSorted};
ghost use Rattle.df_lists.specs.NumberSets.{IsSet};
ghost use Rattle.df_subsets.specs.Blocks.{before};
ghost use Rattle.df_maps.specs.FullMaps.{point_count};
ghost use Rattle.df_kramer_mesner.specs.OrbitSystems.{columns_of, maps_of_problem};
ghost use Rattle.df_correspondence.specs.Designs.{design};
ghost use Rattle.df_design.specs.LeftBlocks.{is_after, blocks_after, IsSettled, IsPlaceFor, IsMet, IsImageAfter, Begins};

use crate::reps::Reps;
use arrayvec::ArrayVec;
use df_matrix::OrbitMatrix;
use df_orbits::Images;
use df_subsets::{Block, blocks_are_ordered, candidates_are_all};
use std::marker::Model;

/// The most blocks that are held ready.
pub const READY: usize = 1024;

/// The earliest blocks of those that were met, increasing.
type Ready = ArrayVec<Block, READY>;

/// The blocks of a design that are left, increasing, each once. Contracts see it as their list.
#[derive(Drop)]
pub struct Blocks<'d> {
    matrix: &'d OrbitMatrix,
    images: &'d Images,
    chosen: &'d [bool],
    last: Option<Block>,
    ready: Ready,
    place: usize,
}

impl<'d> Model for Blocks<'d> {
    ghost use Rattle.std.specs.Prelude.{List, ℕ};
    ghost use Rattle.df_design.specs.LeftBlocks.{blocks_after, AreLeft};

    ghost Value = { List (List ℕ) };

    ghost view = { λ b. blocks_after b.matrix.now b.chosen.now b.last };

    ghost invariant = { λ b. AreLeft b.matrix.now b.chosen.now b.images.now b.last b.ready.items b.place };
}

// Whether a block comes before another.
fn is_before(a: &Block, b: &Block) -> bool
    ensures { result ≡ before a.now b.now }
{
    blocks_are_ordered();
    *a < *b
}

// Whether a block comes after the last one, if there is one.
fn comes_after(last: &Option<Block>, block: &Block) -> bool
    ensures { result ≡ is_after last.now block.now }
{
    match last {
        Some(last) => is_before(last, block),
        None => true,
    }
}

// Whether as many blocks are ready as there may be, and all come before this one.
fn comes_late(ready: &[Block], block: &Block) -> bool
    ensures { result ≡ ((length ready.now == READY) && before (slice_index_or ready.now (READY - 1) []) block.now) }
{
    ready.len() == READY && is_before(&ready[READY - 1], block)
}

// Finds the place of a block, or else the place where it may be put.
fn place_of(ready: &[Block], block: &Block) -> Result<usize, usize>
    requires { IsSorted before ready.now }
    ensures { MatchResult result (λ place. In ready.now block.now) (IsPlaceFor ready.now block.now) }
{
    blocks_are_ordered();
    ready.binary_search(block)
}

// Holds a block ready, if it is one of the earliest.
fn meet(ready: &mut Ready, block: Block)
    requires { IsSorted before ready.old.items }
    ensures { IsMet ready.old.items block ready.new.items }
{
    blocks_are_ordered();
    if comes_late(ready.as_slice(), &block) {
        return;
    }
    let Err(place) = place_of(ready.as_slice(), &block) else {
        return;
    };
    if ready.is_full() {
        ready.pop();
    }
    ready.insert(place, block);
}

// Holds the earliest images of a base block ready that come after the last block.
fn meet_images(ready: &mut Ready, images: &Images, base: &Block, last: &Option<Block>)
    requires block { IsSet (point_count images.now) base.now }
    requires sorted { IsSorted before ready.old.items }
    ensures sorted { IsSorted before ready.new.items }
    ensures inside { (z : List ℕ) → In ready.new.items z → In ready.old.items z ⊎ IsImageAfter images.now base.now last.now z }
    ensures images { (z : List ℕ) → IsImageAfter images.now base.now last.now z → IsSettled ready.new.items z }
    ensures still { (z : List ℕ) → IsSettled ready.old.items z → IsSettled ready.new.items z }
{
    let points = base.points();
    for i in 0..images.count() {
        let image = images.image_block(i, points.as_slice());
        if comes_after(last, &image) {
            meet(ready, image);
        }
    }
}

// The earliest blocks of a vector's design that come after the last one.
fn earliest_after<'d>(
    matrix: &'d OrbitMatrix,
    images: &Images,
    chosen: &'d [bool],
    last: &Option<Block>,
) -> Ready
    requires long { length chosen.now ≡ length (columns_of matrix.now) }
    requires maps { images.now ≡ maps_of_problem matrix.now }
    ensures { Begins (blocks_after matrix.now chosen.now last.now) result.items }
{
    candidates_are_all();
    blocks_are_ordered();
    images.count();
    let mut ready = ArrayVec::new();
    let mut reps = Reps::new(matrix, chosen);
    while let Some(base) = reps.next() {
        meet_images(&mut ready, images, &base, last);
    }
    ready
}

impl<'d> Blocks<'d> {
    /// The blocks of the design of a vector, which has a value for each column; the images are those under the maps of the problem.
    pub(crate) fn new(matrix: &'d OrbitMatrix, images: &'d Images, chosen: &'d [bool]) -> Blocks<'d>
        requires long { length chosen.now ≡ length (columns_of matrix.now) }
        requires maps { images.now ≡ maps_of_problem matrix.now }
        ensures { result ≡ design matrix.now chosen.now }
    {
        Blocks {
            matrix,
            images,
            chosen,
            last: None,
            ready: earliest_after(matrix, images, chosen, &None),
            place: 0,
        }
    }

    /// The first block that is left, which it leaves. `None` exactly where none is left, and then at each later call.
    pub fn next(&mut self) -> Option<Block>
        ensures { MatchOption result ((self.old ≡ []) × (self.new ≡ [])) (λ block. self.old ≡ block ∷ self.new) }
    {
        candidates_are_all();
        blocks_are_ordered();
        let block = *self.ready.as_slice().get(self.place)?;
        self.last = Some(block);
        self.place += 1;
        if self.place == READY {
            self.ready = earliest_after(self.matrix, self.images, self.chosen, &self.last);
            self.place = 0;
        }
        Some(block)
    }
}
