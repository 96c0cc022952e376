// The orbits of a problem: of its pairs of points, which are the rows, and of its blocks, which are the columns to be.
// All three uses of images, to find the orbits of blocks and those of pairs and to number each pair, read one table,
// which is filled once and let go. What stays is 6 bytes for each orbit and 4 for each two points.
ghost use Rattle.std.specs.Prelude.{◌≡◌, ◌==◌, ◌<◌, ◌≤◌, ◌∷◌, [], ℕ, List, length, slice_get, All, Some, None, Err, IfOk, IfErr, IsOk};
ghost use Rattle.std.specs.List.Sorted.{IsStrictlyIncreasing};
ghost use Rattle.df_lists.specs.Membership.{In};
ghost use Rattle.df_lists.specs.NumberSets.{IsSet};
ghost use Rattle.df_lang.specs.Problems.{point_count, IsStated, IsBlock};
ghost use Rattle.df_maps.specs.Laws.{AreGroup};
ghost use Rattle.df_orbits.specs.declared.orbits.OrbitError.{OrbitError as OrbitErrorValue};
ghost use Rattle.df_orbits.specs.declared.orbits.OrbitError.TheVariants.{OutOfMemory as OutOfMemoryError};
ghost use Rattle.df_orbits.specs.Orbits.{pair_orbits, block_orbits, listed_representatives};
ghost use Rattle.df_kramer_mesner.specs.OrbitSystems.{maps_of_problem, in_one_orbit, all_blocks, pairs_of, orbits_of, pair_at, orbit_at, row_number, orbit_number, row_size, orbit_size};
ghost use Rattle.df_matrix.specs.Limits.{subset_limit, subset_limit_of, block_count, only_size};

use crate::OutOfMemory;
use df_kramer_mesner::{entries_are_quotients, numbers_are_few};
use df_lang::Problem;
use df_maps::{Maps, maps_are_groups, maps_are_made};
use df_orbits::{
    Images, MOST_SUBSETS, MOST_SUMMED, OrbitError, Orbits, PairNumbers, count_blocks,
    orbits_of_pairs, orbits_of_sizes,
};
use df_subsets::{Block, Point, blocks_are_sets};
use std::alloc::Global;
use std::marker::Model;

/// A problem with its orbits of pairs, whose numbers are found at one look, and its orbits of blocks.
/// Contracts see it as the problem, of which it keeps a copy.
#[derive(Drop)]
pub struct ProblemOrbits {
    problem: Problem,
    maps: Maps,
    pairs: Orbits,
    numbers: PairNumbers,
    blocks: Orbits,
}

impl Model for ProblemOrbits {
    ghost use Rattle.df_lang.specs.Problems.{Stated};
    ghost use Rattle.df_matrix.specs.MatrixParts.{AreOrbits};

    ghost Value = { Stated };

    ghost view = { λ o. o.problem };

    ghost invariant = { λ o. AreOrbits o.problem o.maps o.pairs o.numbers o.blocks };
}

// The maps of a problem.
fn maps_of(problem: &Problem) -> Maps
    ensures maps { result ≡ maps_of_problem problem.now }
    ensures stated { IsStated problem.now }
    ensures group { AreGroup (maps_of_problem problem.now) }
{
    maps_are_made();
    maps_are_groups();
    let shift = problem.subgroup(problem.shift);
    Maps::new(&problem.shape, problem.fixed, &shift, &problem.mults)
}

// The sizes.
fn all_sizes(problem: &Problem) -> &[u8]
    ensures sizes { result.now ≡ problem.now.sizes }
    ensures some { 0 < length result.now }
    ensures rising { IsStrictlyIncreasing result.now }
    ensures range { All (λ k. (2 ≤ k) × (k ≤ point_count problem.now)) result.now }
    ensures stated { IsStated problem.now }
{
    &problem.sizes
}

// Whether a number of blocks is above the limit of the version.
fn judge_count(version: u8, points: u8, size: u8, count: u128) -> Result<(), OrbitError>
    ensures within { IsOk result → subset_limit_of version points size count ≡ None }
    ensures few { IsOk result → count ≤ MOST_SUMMED }
    ensures refused { IfErr result (λ e. subset_limit_of version points size count ≡ Some e) }
{
    if version == 1 && count > MOST_SUBSETS {
        return Err(OrbitError::TooManySubsets { points, size });
    }
    if version != 1 && count > MOST_SUMMED {
        return Err(OrbitError::TooManySummed { points, sum: count });
    }
    Ok(())
}

// Whether a problem has too many blocks.
fn judge_blocks(problem: &Problem) -> Result<(), OrbitError>
    ensures within { IsOk result → subset_limit problem.now ≡ None }
    ensures few { IsOk result → block_count problem.now ≤ MOST_SUMMED }
    ensures refused { IfErr result (λ e. subset_limit problem.now ≡ Some e) }
{
    let points = problem.points();
    let sizes = all_sizes(problem);
    judge_count(
        problem.version,
        points,
        sizes[0],
        count_blocks(points, sizes),
    )
}

// The orbits of a problem that hasn't too many blocks.
fn listed(alloc: Global, problem: &Problem) -> Result<ProblemOrbits, OutOfMemory>
    requires { block_count problem.now ≤ MOST_SUMMED }
    ensures { IfOk result (λ orbits. orbits ≡ problem.now) }
{
    numbers_are_few();
    let maps = maps_of(problem);
    let images = Images::new(alloc, &maps)?;
    let blocks = orbits_of_sizes(alloc, &images, all_sizes(problem))?;
    let pairs = orbits_of_pairs(alloc, &images)?;
    let numbers = PairNumbers::new(alloc, &images, &pairs)?;
    Ok(ProblemOrbits {
        problem: problem.copied(alloc)?,
        maps,
        pairs,
        numbers,
        blocks,
    })
}

impl ProblemOrbits {
    /// The orbits of a problem.
    /// `TooManySubsets` or `TooManySummed` exactly where there are more blocks than the limit of the version, which is judged first.
    pub fn new(alloc: Global, problem: &Problem) -> Result<ProblemOrbits, OrbitError>
        ensures value { IfOk result (λ orbits. orbits ≡ problem.now) }
        ensures above { (e : OrbitErrorValue) → subset_limit problem.now ≡ Some e → result ≡ Err e }
        ensures below { subset_limit problem.now ≡ None → IfErr result (λ e. e ≡ OutOfMemoryError) }
    {
        if let Err(error) = judge_blocks(problem) {
            return Err(error);
        }
        match listed(alloc, problem) {
            Ok(orbits) => Ok(orbits),
            Err(_) => Err(OrbitError::OutOfMemory),
        }
    }

    /// The problem.
    pub fn problem(&self) -> &Problem
        ensures { result.now ≡ self.now }
    {
        &self.problem
    }

    /// The maps x -> mx + h of the problem.
    pub fn maps(&self) -> &Maps
        ensures { result.now ≡ maps_of_problem self.now }
    {
        &self.maps
    }

    /// The orbits of pairs of points.
    pub fn pairs(&self) -> &Orbits
        ensures orbits { result.now ≡ pair_orbits (maps_of_problem self.now) }
        ensures short { All (λ (pair : List ℕ). length pair ≤ 16) (listed_representatives result.now) }
    {
        numbers_are_few();
        &self.pairs
    }

    /// The orbits of all blocks of the stated sizes.
    pub fn blocks(&self) -> &Orbits
        ensures orbits { result.now ≡ block_orbits (maps_of_problem self.now) self.now.sizes }
        ensures short { All (λ (block : List ℕ). length block ≤ 16) (listed_representatives result.now) }
    {
        numbers_are_few();
        &self.blocks
    }

    /// The number of orbits of pairs.
    pub fn pair_count(&self) -> u32
        ensures count { result ≡ length (pairs_of self.now) }
        ensures small { result ≤ 8128 }
        ensures stated { IsStated self.now }
    {
        numbers_are_few();
        self.pairs.len() as u32
    }

    /// The representative of an orbit of pairs, whose number is below `pair_count`. The first point is the lower one.
    pub fn pair(&self, row: u32) -> (Point, Point)
        requires { row < length (pairs_of self.now) }
        ensures pair { result.0 ∷ result.1 ∷ [] ≡ pair_at self.now row }
        ensures order { result.0 < result.1 }
        ensures within { result.1 < point_count self.now }
    {
        numbers_are_few();
        let points = self.pairs.rep(row as usize).points();
        (points[0], points[1])
    }

    /// The number of the orbit of a pair of points below the number of points, p before q.
    pub fn row_of(&self, p: Point, q: Point) -> u32
        requires order { p < q }
        requires points { q < point_count self.now }
        ensures number { result ≡ row_number self.now (p ∷ q ∷ []) }
        ensures within { result < length (pairs_of self.now) }
        ensures orbit { (i : ℕ) (pair : List ℕ) → slice_get (pairs_of self.now) i ≡ Some pair → in_one_orbit self.now (p ∷ q ∷ []) pair ≡ (i == result) }
    {
        numbers_are_few();
        self.numbers.number_of(p, q) as u32
    }

    /// How many pairs an orbit of pairs has, whose number is below `pair_count`. There is a block.
    pub fn row_size(&self, row: u32) -> u32
        requires row { row < length (pairs_of self.now) }
        requires orbits { 0 < length (orbits_of self.now) }
        ensures size { result ≡ row_size self.now (pair_at self.now row) }
        ensures some { 0 < result }
    {
        entries_are_quotients();
        self.pairs.size(row as usize)
    }

    /// The number of orbits of blocks.
    pub fn orbit_count(&self) -> usize
        ensures count { result ≡ length (orbits_of self.now) }
        ensures few { result ≤ MOST_SUMMED }
        ensures blocks { length (all_blocks self.now) ≤ MOST_SUMMED }
        ensures stated { IsStated self.now }
    {
        self.blocks.len()
    }

    /// The representative of an orbit of blocks, whose number is below `orbit_count`.
    pub fn orbit(&self, orbit: usize) -> Block
        requires { orbit < length (orbits_of self.now) }
        ensures orbit { result ≡ orbit_at self.now orbit }
        ensures member { In (all_blocks self.now) result }
        ensures stated { IsStated self.now }
        ensures block { IsSet (point_count self.now) result }
        ensures size { length result ≤ 16 }
    {
        numbers_are_few();
        blocks_are_sets();
        self.blocks.rep(orbit)
    }

    /// How many blocks an orbit has, whose number is below `orbit_count`.
    pub fn orbit_size(&self, orbit: usize) -> u32
        requires { orbit < length (orbits_of self.now) }
        ensures size { result ≡ orbit_size self.now (orbit_at self.now orbit) }
        ensures some { 0 < result }
        ensures few { result ≤ MOST_SUMMED }
    {
        numbers_are_few();
        self.blocks.size(orbit)
    }

    /// The number of the orbit of a block, which has one of the stated sizes and lies below the number of points.
    pub fn orbit_of(&self, block: &Block) -> usize
        requires { IsBlock (point_count self.now) self.now.sizes block.now }
        ensures number { result ≡ orbit_number self.now block.now }
        ensures within { result < length (orbits_of self.now) }
        ensures orbit { (i : ℕ) (b : List ℕ) → slice_get (orbits_of self.now) i ≡ Some b → in_one_orbit self.now block.now b ≡ (i == result) }
    {
        blocks_are_sets();
        self.blocks.number_of(&self.maps, block)
    }
}
