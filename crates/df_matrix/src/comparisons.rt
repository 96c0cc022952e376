// Orbit matrices against a plain count over all blocks of the sizes, which tells orbits by the least image of each block.
ghost use Rattle.std.specs.Prelude.{◌≡◌, true, length};
ghost use Rattle.df_lists.specs.NumberSets.{has_member, IsSet};
ghost use Rattle.df_lang.specs.Problems.{point_count};
ghost use Rattle.df_kramer_mesner.specs.OrbitSystems.{maps_of_problem};

use crate::{OrbitMatrix, build};
use df_lang::{Problem, parse, target};
use df_maps::{Maps, maps_are_groups, maps_are_made};
use df_subsets::{Block, Point, binomial, blocks_are_sets, unrank};
use std::alloc::Global;
use std::process::Abort;

/// A block and its least image.
#[derive(Clone, Copy)]
struct Listed {
    block: Block,
    least: Block,
}

// The lines of a group, its multipliers and two of its blocks, in the places of the letters G, M, A and B.
fn filled(rt: &impl Abort, alloc: Global, form: &str, lines: [&str; 4]) -> Vec<u8> {
    let mut text = Vec::new(alloc);
    for byte in form.as_bytes() {
        match *byte {
            b'G' => text.extend_from_slice(lines[0].as_bytes()),
            b'M' => text.extend_from_slice(lines[1].as_bytes()),
            b'A' => text.extend_from_slice(lines[2].as_bytes()),
            b'B' => text.extend_from_slice(lines[3].as_bytes()),
            _ => text.extend_from_slice(&[*byte]),
        }
        .expect(rt, "memory");
    }
    text
}

// The maps of a problem.
fn maps_of(problem: &Problem) -> Maps
    ensures { result ≡ maps_of_problem problem.now }
{
    maps_are_made();
    maps_are_groups();
    let shift = problem.subgroup(problem.shift);
    Maps::new(&problem.shape, problem.fixed, &shift, &problem.mults)
}

// The blocks of one size.
fn list_size(rt: &impl Abort, listed: &mut Vec<Listed>, maps: &Maps, size: u8) {
    let points = maps.points();
    assert!(rt; 1 <= size);
    assert!(rt; size <= points);
    for place in 0..binomial(points, size) {
        let block = unrank(points, size, place);
        let least = maps.least_image(&block);
        listed.push(Listed { block, least }).expect(rt, "memory");
    }
}

fn list_all(rt: &impl Abort, alloc: Global, maps: &Maps, sizes: &[u8]) -> Vec<Listed> {
    let mut listed = Vec::new(alloc);
    for size in sizes {
        list_size(rt, &mut listed, maps, *size);
    }
    listed
}

// How many are their own least image.
fn own_images(listed: &[Listed]) -> usize {
    let mut own: usize = 0;
    for one in listed {
        if one.block == one.least {
            own = own.wrapping_add(1);
        }
    }
    own
}

// How many blocks with this least image hold both points.
fn holding(listed: &[Listed], least: &Block, p: Point, q: Point) -> u32 {
    let mut holding: u32 = 0;
    for one in listed {
        if one.least == *least && one.block.has(p) && one.block.has(q) {
            holding = holding.wrapping_add(1);
        }
    }
    holding
}

// Whether one of the stated blocks has this least image.
fn has_one_of(listed: &[Listed], least: &Block, stated: &[Block]) -> bool {
    for one in listed {
        if one.least == *least && stated.contains(&one.block) {
            return true;
        }
    }
    false
}

// The entries of an orbit in the rows of pairs are those of the count; whether none is above its target.
fn compare_pairs(rt: &impl Abort, matrix: &OrbitMatrix, listed: &[Listed], orbit: usize) -> bool {
    assert!(rt; orbit < matrix.orbit_count());
    let least = matrix.orbit_block(orbit);
    let mut fits = true;
    for row in 0..matrix.system().rows() {
        if row < matrix.pair_rows() {
            let (p, q) = matrix.row_pair(row);
            let entry = holding(listed, &least, p, q);
            assert_eq!(rt; matrix.entry_of_orbit(row, orbit), entry);
            let target = target(matrix.problem(), p, q);
            assert_eq!(rt; matrix.system().target(row), target);
            fits = fits && entry <= target;
        }
    }
    fits
}

// The entries of an orbit in the rows of required orbits are 1 in its own and 0 in the others.
fn compare_needed(rt: &impl Abort, matrix: &OrbitMatrix, orbit: usize) {
    assert!(rt; orbit < matrix.orbit_count());
    let least = matrix.orbit_block(orbit);
    for row in matrix.pair_rows()..matrix.system().rows() {
        let entry = u32::from(matrix.row_block(row) == least);
        assert_eq!(rt; matrix.entry_of_orbit(row, orbit), entry);
        assert_eq!(rt; matrix.system().target(row), 1);
    }
}

// The orbits are the blocks that are their own least image, and those that fit and have no forbidden block are the columns, in their order.
fn compare_orbits(rt: &impl Abort, matrix: &OrbitMatrix, listed: &[Listed]) {
    assert_eq!(rt; matrix.orbit_count(), own_images(listed));
    let problem = matrix.problem();
    let mut columns: u32 = 0;
    let mut rows = matrix.pair_rows();
    for orbit in 0..matrix.orbit_count() {
        let least = matrix.orbit_block(orbit);
        assert!(rt; has_one_of(listed, &least, &[least]));
        let fits = compare_pairs(rt, matrix, listed, orbit);
        compare_needed(rt, matrix, orbit);
        let mut column = None;
        if fits && !has_one_of(listed, &least, &problem.forbidden) {
            column = Some(columns);
            columns = columns.wrapping_add(1);
        }
        assert_eq!(rt; matrix.kept(orbit), column);
        if has_one_of(listed, &least, &problem.required) {
            rows = rows.wrapping_add(1);
        }
    }
    assert_eq!(rt; matrix.system().columns(), columns);
    assert_eq!(rt; matrix.system().rows(), rows);
}

// The column of the orbit that this block is the earliest member of.
fn column_with(matrix: &OrbitMatrix, least: &Block) -> Option<u32> {
    for orbit in 0..matrix.orbit_count() {
        if matrix.orbit_block(orbit) == *least {
            return matrix.kept(orbit);
        }
    }
    None
}

// Whether this is one of the sizes.
fn has_size(sizes: &[u8], size: u8) -> bool
    ensures { result ≡ has_member sizes.now size }
{
    sizes.iter().any(|k| *k == size)
}

// The sizes of a matrix's blocks.
fn sizes_of(matrix: &OrbitMatrix) -> &[u8]
    ensures { result.now ≡ matrix.now.sizes }
{
    &matrix.problem().sizes
}

// A block has the column of its least image.
fn compare_column(rt: &impl Abort, matrix: &OrbitMatrix, block: &Block, least: &Block)
    requires set { IsSet (point_count matrix.now) block.now }
    requires size { has_member matrix.now.sizes (length block.now) ≡ true }
{
    assert_eq!(rt; matrix.column_of(block), column_with(matrix, least));
}

// Each block of one size has the column of its least image.
fn compare_columns(rt: &impl Abort, matrix: &OrbitMatrix, maps: &Maps, size: u8) {
    let points = matrix.problem().points();
    blocks_are_sets();
    assert!(rt; maps.points() == points);
    assert!(rt; 1 <= size);
    assert!(rt; size <= points);
    assert!(rt; has_size(sizes_of(matrix), size));
    for place in 0..binomial(points, size) {
        let block = unrank(points, size, place);
        let least = maps.least_image(&block);
        compare_column(rt, matrix, &block, &least);
    }
}

// Whether the text states a problem; its matrix is that of the count.
fn compare(rt: &impl Abort, alloc: Global, text: &[u8]) -> bool {
    let Ok(problem) = parse(alloc, text) else {
        return false;
    };
    let maps = maps_of(&problem);
    let matrix = build(alloc, &problem).expect(rt, "a matrix");
    let pairs = list_all(rt, alloc, &maps, &[2]);
    assert_eq!(rt; matrix.pair_rows() as usize, own_images(&pairs));
    let listed = list_all(rt, alloc, &maps, &problem.sizes);
    compare_orbits(rt, &matrix, &listed);
    for size in &problem.sizes {
        compare_columns(rt, &matrix, &maps, *size);
    }
    true
}

// Cyclic groups and products of two, up to two fixed points, all shifts, none and those of a subgroup, with and without multipliers, with targets of their own
// inside a subgroup and between fixed points, one size and two, and with required and forbidden blocks.
#[test]
fn matrices_are_those_of_a_plain_count(rt: HostRuntime) {
    let alloc = rt.alloc();
    let mut compared: u32 = 0;
    for lines in [
        ["group 5\nsubgroup N 0", "mult 4", "0 1 2", "0 2"],
        ["group 6\nsubgroup N 3", "mult 5", "0 2 4", "0 3"],
        ["group 7\nsubgroup N 0", "mult 2", "0 1 3", "0 1"],
        ["group 8\nsubgroup N 4", "mult 3 5", "0 1 4", "0 4"],
        ["group 9\nsubgroup N 3", "mult 4", "0 3 6", "0 1"],
        [
            "group 2 4\nsubgroup N 1,0",
            "mult 3",
            "0,0 0,1 1,2",
            "0,0 0,2",
        ],
        [
            "group 3 3\nsubgroup N 0,1",
            "mult 2",
            "0,0 0,1 0,2",
            "0,0 1,1",
        ],
    ] {
        for form in [
            "G\nk 3\nlambda 1\n",
            "G\nM\nk 3\nlambda 2\n",
            "G\nfixed 1\nk 3\nlambda 1\n",
            "G\nfixed 2\nM\nk 3\nlambda 1\nhole 0\n",
            "G\nshift none\nM\nk 3\nlambda 1\n",
            "G\nshift N\nk 3\nlambda 1\ninside N 0\n",
            "G\nshift N\nfixed 1\nM\nk 2\nlambda 2\ninside N 1\n",
            "G\nfixed 1\nM\nk 4\nlambda 2\n",
            "G\nk 4\nlambda 2\ninside N 3\n",
            "version 2\nG\nk 2 3\nlambda 1\nrequire A\nforbid B\n",
            "version 2\nG\nfixed 1\nshift N\nM\nk 2 3\nlambda 2\nrequire B\nrequire A\n",
            "version 2\nG\nfixed 2\nM\nk 3 4\nlambda 2\nforbid A\nhole 1\n",
        ] {
            let text = filled(&rt, alloc, form, lines);
            if compare(&rt, alloc, &text) {
                compared = compared.wrapping_add(1);
            }
        }
    }
    assert_eq!(rt; compared, 84);
}
