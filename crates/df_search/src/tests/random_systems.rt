// Searches of small systems that look random, against the plain walk: whether the definitions mean what they should.
ghost use Rattle.std.specs.Prelude.{◌≡◌, ◌<◌, length};

use crate::tests::callers::{ask_advance, ask_next, first_place, resumed_place};
use crate::tests::plain_walk::{PlainStep, PlainSystem, is_node, number, push_paths};
use crate::{Event, ResumeError, Search, Turn};
use df_steps::Steps;
use df_system::{MOST_ENTRIES, Path, ROW_LIMIT, System};
use df_walk::Rules;
use std::alloc::Global;
use std::marker::Brand;
use std::process::Abort;
use std::sync::ledger::{Blank, Ledger};

// Plain numbers that look random.
#[derive(Drop)]
struct Numbers {
    state: u64,
}

impl Numbers {
    fn next(&mut self, below: u32) -> u32
        requires { 0 < below }
        ensures { result < below }
    {
        self.state = self
            .state
            .wrapping_mul(6364136223846793005)
            .wrapping_add(1442695040888963407);
        (self.state / 8589934592) as u32 % below
    }
}

// A system of at most 4 rows and 6 columns. Each row's entries are multiples of 1, 2 or 3 times the scale, and its target is the sum of some of them, or that and 1.
fn make_system(rt: &impl Abort, alloc: Global, scale: u32, numbers: &mut Numbers) -> PlainSystem {
    let rows = 1 + numbers.next(4);
    let columns = numbers.next(7);
    let mut targets = Vec::new(alloc);
    let mut factors = Vec::new(alloc);
    for _ in 0..rows {
        factors.push(1 + numbers.next(3)).expect(rt, "memory");
        targets.push(numbers.next(6) / 5).expect(rt, "memory");
    }
    let mut entries = Vec::new(alloc);
    for _ in 0..columns {
        let chosen = numbers.next(2);
        for (factor, target) in factors.iter().zip(targets.iter_mut()) {
            let entry = factor.wrapping_mul(scale).wrapping_mul(numbers.next(4));
            *target = target.wrapping_add(entry.wrapping_mul(chosen));
            entries.push(entry).expect(rt, "memory");
        }
    }
    PlainSystem {
        targets,
        entries,
        columns: columns as usize,
        scale,
    }
}

// The system as the solver holds it. None where a column has no positive entry.
fn solver_system(rt: &impl Abort, alloc: Global, plain: &PlainSystem) -> Option<System> {
    let targets = Vec::from_slice(alloc, &plain.targets).expect(rt, "memory");
    let entries = Vec::from_slice(alloc, &plain.entries).expect(rt, "memory");
    if targets.is_empty()
        || targets.len() >= ROW_LIMIT
        || entries.len() % targets.len() != 0
        || entries.len() > MOST_ENTRIES
    {
        return None;
    }
    System::new(alloc, targets, entries).ok()
}

// A path as it is written.
fn written(rt: &impl Abort, alloc: Global, path: &[bool]) -> Path {
    let mut chosen = Vec::new(alloc);
    let mut length: u32 = 0;
    for yes in path {
        if *yes {
            chosen.push(length).expect(rt, "memory");
        }
        length = length.wrapping_add(1);
    }
    Path::new(length, chosen).expect(rt, "a path")
}

// How many entries of a walk are nodes.
fn count_nodes(walk: &[PlainStep]) -> u64 {
    let mut nodes: u64 = 0;
    for step in walk {
        if is_node(step.event) {
            nodes = nodes.wrapping_add(1);
        }
    }
    nodes
}

// The search has no budget and stands before this path.
fn assert_place<L: Ledger>(
    rt: &impl Abort,
    search: &mut Search<'_>,
    steps: &mut Steps<L>,
    asked: &mut Vec<bool>,
    path: &[bool],
) {
    let mut budget = 0;
    let event = ask_advance(search, &mut budget, steps, asked).expect(rt, "memory");
    assert_eq!(rt; event, Event::Spent);
    assert!(rt; asked.as_slice() == path);
}

// The search answers these entries and then ends, where it gets the budget first and then 1 for each node.
fn assert_walk<L: Ledger>(
    rt: &impl Abort,
    alloc: Global,
    search: &mut Search<'_>,
    steps: &mut Steps<L>,
    walk: &[PlainStep],
    mut budget: u64,
) {
    let mut asked = Vec::new(alloc);
    for step in walk {
        if is_node(step.event) && budget == 0 {
            assert_place(rt, search, steps, &mut asked, &step.path);
            budget = 1;
        }
        let paid = is_node(step.event) as u64;
        let before = budget;
        assert_eq!(rt; search.advance(&mut budget, steps), step.event);
        assert_eq!(rt; budget.wrapping_add(paid), before);
    }
    assert_eq!(rt; search.advance(&mut budget, steps), Event::Finished);
    assert_eq!(rt; search.advance(&mut budget, steps), Event::Finished);
    assert_eq!(rt; search.next(&mut budget, steps), Turn::Finished);
}

// The solution is the path, with no for the columns past it.
fn assert_chosen(rt: &impl Abort, chosen: &[bool], path: &[bool], columns: usize) {
    assert_eq!(rt; chosen.len(), columns);
    for (column, yes) in chosen.iter().enumerate() {
        assert_eq!(rt; *yes, path.get(column).copied().unwrap_or(false));
    }
}

// What one call of `next` is to answer by the plain walk, and how many entries it passes.
#[derive(Clone, Copy)]
struct Wanted {
    turn: Turn,
    left: u64,
    passed: usize,
}

fn wanted_turn(walk: &[PlainStep], budget: u64) -> Wanted {
    let mut left = budget;
    for (passed, step) in walk.iter().enumerate() {
        if is_node(step.event) {
            if left == 0 {
                return Wanted {
                    turn: Turn::Spent,
                    left,
                    passed,
                };
            }
            left -= 1;
        }
        if step.event == Event::Solution {
            return Wanted {
                turn: Turn::Design,
                left,
                passed: passed.wrapping_add(1),
            };
        }
    }
    Wanted {
        turn: Turn::Finished,
        left,
        passed: walk.len(),
    }
}

// One call of `next` answers what it is to answer: how many entries it passes.
fn assert_next<L: Ledger>(
    rt: &impl Abort,
    alloc: Global,
    search: &mut Search<'_>,
    steps: &mut Steps<L>,
    walk: &[PlainStep],
    columns: usize,
    budget: u64,
) -> usize {
    let mut asked = Vec::new(alloc);
    let mut left = budget;
    let wanted = wanted_turn(walk, budget);
    let turn = ask_next(search, &mut left, steps, &mut asked).expect(rt, "memory");
    assert_eq!(rt; turn, wanted.turn);
    assert_eq!(rt; left, wanted.left);
    if turn == Turn::Spent {
        if let Some(step) = walk.get(wanted.passed) {
            assert!(rt; asked.as_slice() == step.path.as_slice());
        }
    }
    if turn == Turn::Design {
        if let Some(step) = walk.get(wanted.passed.wrapping_sub(1)) {
            assert_chosen(rt, &asked, &step.path, columns);
        }
    }
    wanted.passed
}

// Calls of `next` with this budget each, up to the end of the walk.
fn assert_turns<L: Ledger>(
    rt: &impl Abort,
    alloc: Global,
    search: &mut Search<'_>,
    steps: &mut Steps<L>,
    walk: &[PlainStep],
    columns: usize,
    budget: u64,
) {
    let mut passed: usize = 0;
    for _ in 0..walk.len() {
        if let Some(rest) = walk.get(passed..) {
            let more = assert_next(rt, alloc, search, steps, rest, columns, budget);
            passed = passed.wrapping_add(more);
        }
    }
    let whole = budget > 0 || count_nodes(walk) == 0;
    assert_eq!(rt; passed == walk.len(), whole);
}

// Every budget from 0 to the number of nodes, by `advance` and by `next`.
fn assert_budgets<L: Ledger>(
    rt: &impl Abort,
    alloc: Global,
    system: &System,
    rules: Rules,
    walk: &[PlainStep],
    columns: usize,
    steps: &mut Steps<L>,
) {
    let place = first_place(alloc, system, rules, steps).expect(rt, "memory");
    assert!(rt; place.is_empty());
    for budget in 0..=count_nodes(walk) {
        let mut search = Search::new(alloc, system, rules, steps).expect(rt, "memory");
        assert_walk(rt, alloc, &mut search, steps, walk, budget);
        let mut search = Search::new(alloc, system, rules, steps).expect(rt, "memory");
        assert_turns(rt, alloc, &mut search, steps, walk, columns, budget);
    }
}

// From each node the walk goes on, and no other path of at most one column too many is resumed.
fn assert_resumes<L: Ledger>(
    rt: &impl Abort,
    alloc: Global,
    plain: &PlainSystem,
    system: &System,
    rules: Rules,
    walk: &[PlainStep],
    steps: &mut Steps<L>,
) {
    for (place, step) in walk.iter().enumerate() {
        if is_node(step.event) {
            let path = written(rt, alloc, &step.path);
            let resumed = resumed_place(alloc, system, &path, rules, steps).expect(rt, "a node");
            assert!(rt; resumed.as_slice() == step.path.as_slice());
            let mut search = Search::resume(alloc, system, &path, rules, steps).expect(
                rt, "a node",
            );
            if let Some(rest) = walk.get(place..) {
                assert_walk(rt, alloc, &mut search, steps, rest, 1);
            }
        }
    }
    let mut paths = Vec::new(alloc);
    push_paths(
        alloc,
        Vec::new(alloc),
        plain.columns.wrapping_add(1),
        &mut paths,
    )
    .expect(rt, "memory");
    for decisions in paths.iter() {
        let path = written(rt, alloc, decisions);
        let refused = resumed_place(alloc, system, &path, rules, steps).err();
        assert!(rt; refused == wanted_refusal(plain, rules, decisions));
    }
}

fn wanted_refusal(plain: &PlainSystem, rules: Rules, decisions: &[bool]) -> Option<ResumeError> {
    if decisions.len() > plain.columns {
        Some(ResumeError::PathRange {
            length: number(decisions.len()),
            columns: number(plain.columns),
        })
    } else {
        plain.refusal(rules, decisions).map(ResumeError::NotNode)
    }
}

// How often each kind of entry came.
#[derive(Drop)]
struct Seen {
    systems: u32,
    solutions: u64,
    leaves: u64,
    residues: u64,
}

impl Seen {
    fn none() -> Seen {
        Seen {
            systems: 0,
            solutions: 0,
            leaves: 0,
            residues: 0,
        }
    }

    fn add(&mut self, walk: &[PlainStep]) {
        for step in walk {
            match step.event {
                Event::Solution => self.solutions = self.solutions.wrapping_add(1),
                Event::Over(_) | Event::Under(_) => self.leaves = self.leaves.wrapping_add(1),
                Event::Residue(_, _) => self.residues = self.residues.wrapping_add(1),
                _ => {}
            }
        }
    }
}

fn compare<L: Ledger>(
    rt: &impl Abort,
    alloc: Global,
    plain: &PlainSystem,
    system: &System,
    seen: &mut Seen,
    blank: Blank,
)
    requires name { blank.name ≡ L.name }
    requires parts { blank.parts ≡ L.parts }
    requires some { 0 < blank.parts }
{
    let mut steps = Steps::<L>::new(blank);
    for rules in [Rules::Plain, Rules::Divisor] {
        let walk = plain.walk(alloc, rules).expect(rt, "memory");
        assert_budgets(rt, alloc, system, rules, &walk, plain.columns, &mut steps);
        assert_resumes(rt, alloc, plain, system, rules, &walk, &mut steps);
        seen.add(&walk);
    }
    seen.systems = seen.systems.wrapping_add(1);
}

// The whole walk by `advance`, and by `next` three nodes at a time.
fn compare_once<L: Ledger>(
    rt: &impl Abort,
    alloc: Global,
    plain: &PlainSystem,
    system: &System,
    seen: &mut Seen,
    blank: Blank,
)
    requires name { blank.name ≡ L.name }
    requires parts { blank.parts ≡ L.parts }
    requires some { 0 < blank.parts }
{
    let mut steps = Steps::<L>::new(blank);
    for rules in [Rules::Plain, Rules::Divisor] {
        let walk = plain.walk(alloc, rules).expect(rt, "memory");
        let mut search = Search::new(alloc, system, rules, &mut steps).expect(rt, "memory");
        let nodes = count_nodes(&walk);
        assert_walk(rt, alloc, &mut search, &mut steps, &walk, nodes);
        let mut search = Search::new(alloc, system, rules, &mut steps).expect(rt, "memory");
        assert_turns(rt, alloc, &mut search, &mut steps, &walk, plain.columns, 3);
        seen.add(&walk);
    }
    seen.systems = seen.systems.wrapping_add(1);
}

#[test]
fn searches_are_plain_walks(rt: HostRuntime) {
    let alloc = rt.alloc();
    let mut numbers = Numbers { state: 11 };
    let mut seen = Seen::none();
    for _ in 0..300 {
        let plain = make_system(&rt, alloc, 1, &mut numbers);
        if let Some(system) = solver_system(&rt, alloc, &plain) {
            compare::<Brand>(&rt, alloc, &plain, &system, &mut seen, Blank::new(1));
        }
    }
    assert!(rt; seen.systems >= 100, "{} systems", seen.systems);
    assert!(rt; seen.solutions >= 100, "{} solutions", seen.solutions);
    assert!(rt; seen.leaves >= 100, "{} leaves", seen.leaves);
    assert!(rt; seen.residues >= 100, "{} residues", seen.residues);
}

// No deadline of a need above 1,048,576 stands in a table.
#[test]
fn searches_with_large_targets_are_plain_walks(rt: HostRuntime) {
    let alloc = rt.alloc();
    let mut numbers = Numbers { state: 18 };
    let mut seen = Seen::none();
    for _ in 0..6 {
        let plain = make_system(&rt, alloc, 1100000, &mut numbers);
        if let Some(system) = solver_system(&rt, alloc, &plain) {
            compare_once::<Brand>(&rt, alloc, &plain, &system, &mut seen, Blank::new(1));
        }
    }
    assert!(rt; seen.systems >= 3, "{} systems", seen.systems);
    assert!(rt; seen.solutions >= 3, "{} solutions", seen.solutions);
    assert!(rt; seen.leaves >= 3, "{} leaves", seen.leaves);
    assert!(rt; seen.residues >= 3, "{} residues", seen.residues);
}
