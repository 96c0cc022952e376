// The designs of the solutions of orbit matrices against a plain program that goes over families of
// blocks by the definition of a design.
ghost use Rattle.std.specs.Prelude.{◌≡◌, ◌<◌, map};
ghost use Rattle.df_walk.specs.Solutions.{solutions};
ghost use Rattle.df_kramer_mesner.specs.OrbitSystems.{orbit_system};
ghost use Rattle.df_correspondence.specs.Designs.{asked, design};

use crate::plain_designs::{PlainProblem, set_of, set_of_points};
use df_lang::{Problem, parse};
use df_matrix::{OrbitMatrix, build, matrix_tells_designs};
use df_search::{Rules, Search, Turn};
use df_steps::Steps;
use std::alloc::Global;
use std::marker::Brand;
use std::process::Abort;
use std::sync::ledger::{Blank, Ledger};

// The representatives of the columns, in order, as sets of points.
fn columns_of(rt: &impl Abort, alloc: Global, matrix: &OrbitMatrix) -> Vec<u32> {
    let mut columns = Vec::new(alloc);
    for orbit in 0..matrix.orbit_count() {
        assert!(rt; orbit < matrix.orbit_count());
        if matrix.kept(orbit).is_some() {
            let column = set_of(&matrix.orbit_block(orbit));
            columns.push(column).expect(rt, "memory");
        }
    }
    columns
}

// The columns that a solution chooses.
fn chosen_of(rt: &impl Abort, alloc: Global, columns: &[u32], solution: &[bool]) -> Vec<u32> {
    assert_eq!(rt; columns.len(), solution.len());
    let mut chosen = Vec::new(alloc);
    for (column, yes) in columns.iter().zip(solution.iter()) {
        if *yes {
            chosen.push(*column).expect(rt, "memory");
        }
    }
    chosen
}

/// What a search gives: its solutions, each as the representatives of the chosen columns, and the
/// number of its nodes.
#[derive(Drop)]
struct Found {
    solutions: Vec<Vec<u32>>,
    nodes: u64,
}

const BUDGET: u64 = 1_000_000;

fn search<L: Ledger>(
    rt: &impl Abort,
    alloc: Global,
    matrix: &OrbitMatrix,
    rules: Rules,
    blank: Blank,
) -> Found
    requires name { blank.name ≡ L.name }
    requires parts { blank.parts ≡ L.parts }
    requires some { 0 < blank.parts }
{
    let columns = columns_of(rt, alloc, matrix);
    let mut solved = Vec::new(alloc);
    let mut steps = Steps::<L>::new(blank);
    let mut search = Search::new(alloc, matrix.system(), rules, &mut steps).expect(rt, "memory");
    let mut budget = BUDGET;
    for _ in 0..BUDGET {
        match search.next(&mut budget, &mut steps) {
            Turn::Design => {
                let chosen = chosen_of(rt, alloc, &columns, search.chosen());
                solved.push(chosen).expect(rt, "memory");
            }
            Turn::Finished => break,
            Turn::Spent => assert!(rt; false, "the budget is spent"),
        }
    }
    let nodes = BUDGET.wrapping_sub(budget);
    Found {
        solutions: solved,
        nodes,
    }
}

// The orbit matrix of a problem. Its clause follows from those of `build` and of the law alone.
fn matrix_of(rt: &impl Abort, alloc: Global, problem: &Problem) -> OrbitMatrix
    ensures { asked problem.now ≡ map (design problem.now) (solutions (orbit_system result)) }
{
    let matrix = build(alloc, problem).expect(rt, "a matrix");
    matrix_tells_designs(&matrix);
    matrix
}

// The solutions of the problem's orbit matrix by one set of rules.
fn solve(rt: &impl Abort, alloc: Global, problem: &Problem, rules: Rules) -> Found {
    let matrix = matrix_of(rt, alloc, problem);
    search::<Brand>(rt, alloc, &matrix, rules, Blank::new(1))
}

// The blocks of a design that are the first of their orbits, in order.
fn base_of(
    rt: &impl Abort,
    alloc: Global,
    plain: &PlainProblem,
    orbits: &[usize],
    design: &[bool],
) -> Vec<u32> {
    let mut base = Vec::new(alloc);
    for (place, block) in plain.blocks.iter().enumerate() {
        if design.get(place) == Some(&true) && orbits.get(place) == Some(&place) {
            base.push(*block).expect(rt, "memory");
        }
    }
    base
}

// The blocks whose orbits are chosen, as a family.
fn union_of(
    rt: &impl Abort,
    alloc: Global,
    plain: &PlainProblem,
    orbits: &[usize],
    chosen: &[u32],
) -> Vec<bool> {
    let mut family = Vec::new(alloc);
    for orbit in orbits {
        let representative = plain.blocks.get(*orbit).copied().expect(rt, "a block");
        family
            .push(chosen.contains(&representative))
            .expect(rt, "memory");
    }
    family
}

// The designs of the solutions are these designs, in this order, and their base blocks are the
// chosen columns.
fn assert_designs(
    rt: &impl Abort,
    alloc: Global,
    plain: &PlainProblem,
    orbits: &[usize],
    designs: &[Vec<bool>],
    solutions: &[Vec<u32>],
) {
    assert_eq!(rt; designs.len(), solutions.len());
    for (design, chosen) in designs.iter().zip(solutions.iter()) {
        let union = union_of(rt, alloc, plain, orbits, chosen);
        assert!(rt; union.as_slice() == design.as_slice());
        let base = base_of(rt, alloc, plain, orbits, design);
        assert!(rt; base.as_slice() == chosen.as_slice());
    }
}

// The first block in which two families differ is in the first of them.
fn comes_first(first: &[bool], second: &[bool]) -> bool {
    for (one, other) in first.iter().zip(second.iter()) {
        if one != other {
            return *one;
        }
    }
    false
}

fn assert_order(rt: &impl Abort, designs: &[Vec<bool>]) {
    for (first, second) in designs.iter().zip(designs.iter().skip(1)) {
        assert!(rt; comes_first(first, second));
    }
}

// How many problems there were, and how many designs they have.
#[derive(Clone, Copy, Debug, PartialEq, Eq)]
struct Counted {
    problems: u32,
    designs: u64,
}

impl Counted {
    fn add(&mut self, designs: usize) {
        self.problems = self.problems.wrapping_add(1);
        self.designs = self.designs.wrapping_add(designs as u64);
    }
}

// The designs of a problem, by all families where it has at most 14 blocks and else by the unions
// of orbits, are those of the solutions by either rules. How many there are.
fn compare(rt: &impl Abort, alloc: Global, problem: &Problem) -> usize {
    let plain = PlainProblem::new(rt, alloc, problem);
    let orbits = plain.orbits(rt, alloc);
    let designs = if plain.blocks.len() <= 14 {
        plain.among_all(rt, alloc)
    } else {
        plain.among_unions(rt, alloc, &orbits)
    };
    assert_order(rt, &designs);
    for rules in [Rules::Plain, Rules::Divisor] {
        let found = solve(rt, alloc, problem, rules);
        assert_designs(rt, alloc, &plain, &orbits, &designs, &found.solutions);
    }
    designs.len()
}

// The lines of a group, its multipliers and two of its blocks, in the places of the letters G, M, A
// and B of a form.
fn filled(rt: &impl Abort, alloc: Global, form: &str, lines: [&str; 4]) -> Vec<u8> {
    let mut text = Vec::new(alloc);
    for byte in form.as_bytes() {
        match *byte {
            b'G' => text.extend_from_slice(lines[0].as_bytes()),
            b'M' => text.extend_from_slice(lines[1].as_bytes()),
            b'A' => text.extend_from_slice(lines[2].as_bytes()),
            b'B' => text.extend_from_slice(lines[3].as_bytes()),
            _ => text.extend_from_slice(&[*byte]),
        }
        .expect(rt, "memory");
    }
    text
}

// Compares the problems of all forms over all groups.
fn compare_all(rt: &impl Abort, alloc: Global, groups: &[[&str; 4]], forms: &[&str]) -> Counted {
    let mut counted = Counted {
        problems: 0,
        designs: 0,
    };
    for lines in groups {
        for form in forms {
            let text = filled(rt, alloc, form, *lines);
            let problem = parse(alloc, &text).expect(rt, "a problem");
            counted.add(compare(rt, alloc, &problem));
        }
    }
    counted
}

// Problems of at most 11 blocks, over four points.
#[test]
fn designs_of_four_points_are_those_among_all_families(rt: HostRuntime) {
    let counted = compare_all(
        &rt,
        rt.alloc(),
        &[
            ["group 4\nsubgroup N 2", "mult 3", "0 1 3", "0 2"],
            [
                "group 2 2\nsubgroup N 0,1",
                "mult 1",
                "0,0 0,1 1,0",
                "0,0 1,1",
            ],
            [
                "group 3\nfixed 1\nsubgroup N 0",
                "mult 2",
                "0 1 inf1",
                "0 1",
            ],
            [
                "group 2\nfixed 2\nsubgroup N 1",
                "mult 1",
                "0 1 inf1",
                "0 inf2",
            ],
        ],
        &[
            "G\nk 2\nlambda 1\n",
            "G\nM\nk 3\nlambda 2\n",
            "G\nk 3\nlambda 40\n",
            "G\nshift N\nM\nk 2\nlambda 0\ninside N 1\n",
            "G\nshift none\nk 2\nlambda 1\nhole 0\n",
            "version 2\nG\nk 2 3\nlambda 1\n",
            "version 2\nG\nshift none\nk 2 3\nlambda 1\n",
            "version 2\nG\nshift none\nk 2 3\nlambda 2\nrequire B\n",
            "version 2\nG\nshift N\nk 2 3 4\nlambda 1\nforbid B\n",
            "version 2\nG\nM\nk 2 3\nlambda 3\nrequire A\n",
            "version 2\nG\nshift N\nk 2 3\nlambda 2\ninside N 1\nhole 1\nforbid A\n",
        ],
    );
    let wanted = Counted {
        problems: 44,
        designs: 63,
    };
    assert_eq!(rt; counted, wanted);
}

// Problems of at most 10 blocks, over five points with up to three fixed ones.
#[test]
fn designs_of_five_points_are_those_among_all_families(rt: HostRuntime) {
    let counted = compare_all(
        &rt,
        rt.alloc(),
        &[
            ["group 5\nsubgroup N 0", "mult 4", "0 1 3", "0 2"],
            [
                "group 4\nfixed 1\nsubgroup N 2",
                "mult 3",
                "0 2 inf1",
                "1 inf1",
            ],
            [
                "group 2\nfixed 3\nsubgroup N 1",
                "mult 1",
                "0 1 inf3",
                "inf1 inf2",
            ],
            [
                "group 2 2\nfixed 1\nsubgroup N 1,1",
                "mult 1",
                "0,0 0,1 inf1",
                "0,0 0,1",
            ],
            [
                "group 3\nfixed 2\nsubgroup N 1",
                "mult 2",
                "0 inf1 inf2",
                "0 inf1",
            ],
        ],
        &[
            "G\nk 2\nlambda 1\nhole 0\n",
            "G\nM\nk 3\nlambda 3\n",
            "G\nshift none\nk 3\nlambda 3\n",
            "G\nshift N\nk 2\nlambda 0\ninside N 1\n",
            "version 2\nG\nshift N\nk 4 5\nlambda 3\nhole 3\n",
            "version 2\nG\nshift none\nk 4 5\nlambda 1\n",
            "version 2\nG\nM\nk 3\nlambda 1\nhole 3\nrequire A\n",
            "version 2\nG\nk 2\nlambda 1\nforbid B\n",
            "version 2\nG\nk 2\nlambda 1\nrequire B\n",
        ],
    );
    let wanted = Counted {
        problems: 45,
        designs: 36,
    };
    assert_eq!(rt; counted, wanted);
}

// With and without multipliers, by all translations, none, or those of a subgroup, with targets of
// their own inside a subgroup and between fixed points, targets 0 and above all covers, one size
// and two, and required and forbidden blocks.
const FORMS: [&str; 15] = [
    "G\nk 3\nlambda 0\n",
    "G\nk 3\nlambda 1\nhole 1\n",
    "G\nM\nk 3\nlambda 2\n",
    "G\nk 3\nlambda 1\ninside N 0\n",
    "G\nM\nk 4\nlambda 3\n",
    "G\nM\nk 4\nlambda 2\nhole 0\n",
    "G\nshift N\nM\nk 3\nlambda 1\n",
    "G\nshift none\nk 2\nlambda 1\nhole 0\n",
    "G\nk 4\nlambda 0\ninside N 2\n",
    "version 2\nG\nk 2 3\nlambda 1\n",
    "version 2\nG\nk 2 3\nlambda 1\nrequire A\n",
    "version 2\nG\nM\nk 2 3\nlambda 2\nrequire A\nforbid B\n",
    "version 2\nG\nshift N\nM\nk 3 4\nlambda 1\nforbid A\n",
    "version 2\nG\nM\nk 2 4\nlambda 2\nhole 1\nforbid B\n",
    "G\nk 3\nlambda 40\n",
];

// Cyclic groups.
#[test]
fn designs_over_cyclic_groups_are_those_among_unions_of_orbits(rt: HostRuntime) {
    let counted = compare_all(
        &rt,
        rt.alloc(),
        &[
            [
                "group 5\nfixed 1\nsubgroup N 0",
                "mult 4",
                "0 1 inf1",
                "0 2",
            ],
            ["group 6\nsubgroup N 3", "mult 5", "0 2 4", "0 3"],
            ["group 7\nsubgroup N 0", "mult 2", "0 1 3", "0 1"],
            ["group 8\nsubgroup N 4", "mult 3 5", "0 1 4", "0 4"],
            ["group 9\nsubgroup N 3", "mult 4", "0 3 6", "0 1"],
        ],
        &FORMS,
    );
    let wanted = Counted {
        problems: 75,
        designs: 63,
    };
    assert_eq!(rt; counted, wanted);
}

// Products of two cyclic groups, and one and three fixed points.
#[test]
fn designs_over_products_are_those_among_unions_of_orbits(rt: HostRuntime) {
    let counted = compare_all(
        &rt,
        rt.alloc(),
        &[
            [
                "group 2 4\nsubgroup N 1,0",
                "mult 3",
                "0,0 0,1 1,2",
                "0,0 0,2",
            ],
            [
                "group 3 3\nsubgroup N 0,1",
                "mult 2",
                "0,0 0,1 0,2",
                "0,0 1,1",
            ],
            [
                "group 7\nfixed 1\nsubgroup N 0",
                "mult 2",
                "0 1 inf1",
                "2 3",
            ],
            [
                "group 4\nfixed 3\nsubgroup N 2",
                "mult 3",
                "inf1 inf2 inf3",
                "1 3",
            ],
        ],
        &FORMS,
    );
    let wanted = Counted {
        problems: 60,
        designs: 98,
    };
    assert_eq!(rt; counted, wanted);
}

// The numbers of designs and of nodes of the search, worked out apart from this program.
#[test]
fn searches_have_these_designs_and_nodes(rt: HostRuntime) {
    for (text, designs, nodes) in [
        ("group 7\nk 3\nlambda 0\n", 1, 1),
        ("group 7\nk 3\nlambda 1\n", 2, 4),
        ("group 7\nk 3\nlambda 2\n", 1, 10),
        ("group 7\nk 3\nlambda 3\n", 1, 11),
        ("group 7\nk 3\nlambda 4\n", 2, 10),
        ("group 7\nk 3\nlambda 5\n", 1, 6),
        ("group 9\nk 3\nlambda 1\n", 0, 18),
        ("group 3 3\nk 3\nlambda 1\n", 9, 68),
        // the Steiner triple systems of nine points
        ("group 3 3\nshift none\nk 3\nlambda 1\n", 840, 61825),
        ("group 13\nk 4\nlambda 1\n", 4, 8),
        ("group 13\nmult 3\nk 4\nlambda 1\n", 4, 8),
        ("group 13\nmult 12\nk 4\nlambda 1\n", 0, 0),
        // the Fano planes
        ("group 7\nshift none\nk 3\nlambda 1\n", 30, 734),
        ("group 5\nk 5\nlambda 1\n", 1, 2),
        ("version 2\ngroup 6\nk 2 3\nlambda 1\n", 2, 8),
        ("version 2\ngroup 6\nk 2 3\nlambda 1\nrequire 0 2 4\n", 1, 6),
        ("version 2\ngroup 6\nk 2 3\nlambda 1\nforbid 1 3 5\n", 1, 4),
        (
            "version 2\ngroup 6\nk 2 3\nlambda 1\nrequire 0 2 4\nforbid 1 3 5\n",
            0,
            0,
        ),
    ] {
        let problem = parse(rt.alloc(), text.as_bytes()).expect(&rt, "a problem");
        let found = solve(&rt, rt.alloc(), &problem, Rules::Plain);
        assert_eq!(rt; found.solutions.len(), designs, "at {text}");
        assert_eq!(rt; found.nodes, nodes, "at {text}");
    }
}

// The solutions are these lists of base blocks.
fn assert_bases(rt: &impl Abort, alloc: Global, text: &str, bases: &[&[&[u32]]]) {
    let problem = parse(alloc, text.as_bytes()).expect(rt, "a problem");
    let found = solve(rt, alloc, &problem, Rules::Divisor);
    assert_eq!(rt; found.solutions.len(), bases.len(), "at {text}");
    for (chosen, base) in found.solutions.iter().zip(bases.iter()) {
        let mut sets = Vec::new(alloc);
        for block in *base {
            sets.push(set_of_points(block)).expect(rt, "memory");
        }
        assert!(rt; chosen.as_slice() == sets.as_slice(), "at {text}");
    }
}

// The planes of order 2, 3 and 4 by their difference sets, the affine plane of order 3, triples of
// fifteen points with a short orbit, a divisible design, and a design with a fixed point.
#[test]
fn classical_designs_have_these_base_blocks(rt: HostRuntime) {
    let alloc = rt.alloc();
    assert_bases(
        &rt,
        alloc,
        "group 7\nk 3\nlambda 1\n",
        &[&[&[0, 1, 3]], &[&[0, 1, 5]]],
    );
    assert_bases(
        &rt,
        alloc,
        "group 13\nk 4\nlambda 1\n",
        &[
            &[&[0, 1, 3, 9]],
            &[&[0, 1, 4, 6]],
            &[&[0, 1, 5, 11]],
            &[&[0, 1, 8, 10]],
        ],
    );
    assert_bases(
        &rt,
        alloc,
        "group 21\nmult 2\nk 5\nlambda 1\n",
        &[&[&[0, 1, 4, 14, 16]], &[&[0, 1, 6, 8, 18]]],
    );
    assert_bases(
        &rt,
        alloc,
        "group 3 3\nmult 2\nk 3\nlambda 1\n",
        &[&[&[0, 1, 2], &[0, 3, 6], &[0, 4, 8], &[0, 5, 7]]],
    );
    assert_bases(
        &rt,
        alloc,
        "group 15\nk 3\nlambda 1\n",
        &[
            &[&[0, 1, 4], &[0, 2, 8], &[0, 5, 10]],
            &[&[0, 1, 4], &[0, 2, 9], &[0, 5, 10]],
            &[&[0, 1, 12], &[0, 2, 8], &[0, 5, 10]],
            &[&[0, 1, 12], &[0, 2, 9], &[0, 5, 10]],
        ],
    );
    assert_bases(
        &rt,
        alloc,
        "group 8\nsubgroup N 4\nk 3\nlambda 1\ninside N 0\n",
        &[&[&[0, 1, 3]], &[&[0, 1, 6]]],
    );
    assert_bases(
        &rt,
        alloc,
        "group 8\nfixed 1\nk 3\nlambda 1\n",
        &[&[&[0, 1, 3], &[0, 4, 8]], &[&[0, 1, 6], &[0, 4, 8]]],
    );
}
