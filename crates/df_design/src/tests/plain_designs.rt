// The designs of a small problem by trying all unions of orbits: no matrix, no search. An orbit is told by the least image of its blocks, and a union is judged by counting its blocks through each two points.
ghost use Rattle.std.specs.Prelude.{◌≡◌};
ghost use Rattle.df_kramer_mesner.specs.OrbitSystems.{maps_of_problem};

use df_lang::{Problem, target};
use df_maps::{Maps, maps_are_groups, maps_are_made};
use df_subsets::{Block, Point, binomial, unrank};
use std::alloc::Global;
use std::process::Abort;

/// A block and the least block of its orbit.
#[derive(Clone, Copy)]
pub(crate) struct Listed {
    pub(crate) block: Block,
    pub(crate) least: Block,
}

// The maps of a problem.
fn maps_of(problem: &Problem) -> Maps
    ensures { result ≡ maps_of_problem problem.now }
{
    maps_are_made();
    maps_are_groups();
    let shift = problem.subgroup(problem.shift);
    Maps::new(&problem.shape, problem.fixed, &shift, &problem.mults)
}

// All blocks of the sizes, each with the least one of its orbit, size by size.
pub(crate) fn list_blocks(rt: &impl Abort, alloc: Global, problem: &Problem) -> Vec<Listed> {
    let maps = maps_of(problem);
    let points = maps.points();
    let mut listed = Vec::new(alloc);
    for size in &problem.sizes {
        let size = *size;
        assert!(rt; 1 <= size);
        assert!(rt; size <= points);
        for place in 0..binomial(points, size) {
            let block = unrank(points, size, place);
            let least = maps.least_image(&block);
            listed.push(Listed { block, least }).expect(rt, "memory");
        }
    }
    listed
}

// The least blocks of the orbits, increasing.
pub(crate) fn list_orbits(rt: &impl Abort, alloc: Global, listed: &[Listed]) -> Vec<Block> {
    let mut orbits = Vec::new(alloc);
    for one in listed {
        if one.block == one.least {
            orbits.push(one.block).expect(rt, "memory");
        }
    }
    orbits.as_mut_slice().sort_unstable();
    orbits
}

// The blocks of some orbits, increasing.
fn union(rt: &impl Abort, alloc: Global, listed: &[Listed], orbits: &[Block]) -> Vec<Block> {
    let mut blocks = Vec::new(alloc);
    for one in listed {
        if orbits.contains(&one.least) {
            blocks.push(one.block).expect(rt, "memory");
        }
    }
    blocks.as_mut_slice().sort_unstable();
    blocks
}

// Whether each two points lie together in as many of the blocks as their target says.
fn is_balanced(rt: &impl Abort, problem: &Problem, blocks: &[Block]) -> bool {
    let points = problem.points();
    for q in 0..points {
        for p in 0..q {
            let mut cover: u32 = 0;
            for block in blocks {
                if block.has(Point(p)) && block.has(Point(q)) {
                    cover = cover.wrapping_add(1);
                }
            }
            assert!(rt; p < q && q < points);
            if cover != target(problem, Point(p), Point(q)) {
                return false;
            }
        }
    }
    true
}

// Whether a problem asks for these blocks, which its maps don't lead out of.
fn is_asked(rt: &impl Abort, problem: &Problem, blocks: &[Block]) -> bool {
    is_balanced(rt, problem, blocks)
        && problem.required.iter().all(|block| blocks.contains(block))
        && !problem.forbidden.iter().any(|block| blocks.contains(block))
}

/// A design: the least blocks of its orbits, and its blocks, both increasing.
#[derive(Drop)]
pub(crate) struct PlainDesign {
    pub(crate) base: Vec<Block>,
    pub(crate) blocks: Vec<Block>,
}

// The orbits that a number chooses: the first orbit by its highest bit.
fn chosen(rt: &impl Abort, alloc: Global, orbits: &[Block], number: u32) -> Vec<Block> {
    let mut chosen = Vec::new(alloc);
    let mut bit = orbits.len().min(32) as u32;
    for orbit in orbits {
        bit = bit.wrapping_sub(1);
        if bit < 32 && number >> bit & 1 == 1 {
            chosen.push(*orbit).expect(rt, "memory");
        }
    }
    chosen
}

/// All designs that a problem of at most 14 orbits asks for, in order: the union that has the first orbit stands before the one that hasn't.
pub(crate) fn plain_designs(rt: &impl Abort, alloc: Global, problem: &Problem) -> Vec<PlainDesign> {
    let listed = list_blocks(rt, alloc, problem);
    let orbits = list_orbits(rt, alloc, &listed);
    assert!(rt; orbits.len() <= 14);
    let mut designs = Vec::new(alloc);
    for passed in 0..1u32 << orbits.len() {
        let number = (1u32 << orbits.len()).wrapping_sub(1).wrapping_sub(passed);
        let base = chosen(rt, alloc, &orbits, number);
        let blocks = union(rt, alloc, &listed, &base);
        if is_asked(rt, problem, &blocks) {
            designs
                .push(PlainDesign { base, blocks })
                .expect(rt, "memory");
        }
    }
    designs
}
