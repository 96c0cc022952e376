// What no clause says: that memory is enough, and walks that were worked out by hand.
ghost use Rattle.std.specs.Prelude.{◌≡◌, ◌<◌, length};

use crate::{Event, ResumeError, Search, Turn, Why};
use df_steps::Steps;
use df_system::{MOST_ENTRIES, Path, ROW_LIMIT, System};
use df_walk::Rules;
use std::alloc::Global;
use std::marker::Brand;
use std::process::Abort;
use std::sync::ledger::{Blank, Ledger};

// The system with these targets and this many columns of ones.
fn ones(alloc: Global, targets: &[u32], columns: usize) -> Option<System> {
    let targets = Vec::from_slice(alloc, targets).ok()?;
    let entries = vec![in alloc; 1; columns.wrapping_mul(targets.len())].ok()?;
    if targets.is_empty()
        || targets.len() >= ROW_LIMIT
        || entries.len() % targets.len() != 0
        || entries.len() > MOST_ENTRIES
    {
        return None;
    }
    System::new(alloc, targets, entries).ok()
}

// The path of this length with these columns chosen.
fn path_to(rt: &impl Abort, alloc: Global, length: u32, chosen: &[u32]) -> Path {
    let columns = Vec::from_slice(alloc, chosen).expect(rt, "memory");
    Path::new(length, columns).expect(rt, "a path")
}

// Three rows with the target 3 over the columns 2 1 0, 2 2 2, 1 0 2 and 0 2 1: triples of the cyclic group of order 7, each pair three times, under x -> -x.
fn triples(alloc: Global) -> Option<System> {
    let targets = Vec::from_array(alloc, [3, 3, 3]).ok()?;
    let entries = Vec::from_array(alloc, [2, 1, 0, 2, 2, 2, 1, 0, 2, 0, 2, 1]).ok()?;
    if targets.is_empty() || entries.len() % targets.len() != 0 || entries.len() > MOST_ENTRIES {
        return None;
    }
    System::new(alloc, targets, entries).ok()
}

// The events from the empty path on, with this budget, are these.
fn walks<L: Ledger>(
    rt: &impl Abort,
    alloc: Global,
    system: &System,
    rules: Rules,
    mut budget: u64,
    events: &[Event],
    blank: Blank,
)
    requires name { blank.name ≡ L.name }
    requires parts { blank.parts ≡ L.parts }
    requires some { 0 < blank.parts }
{
    let mut steps = Steps::<L>::new(blank);
    let mut search = Search::new(alloc, system, rules, &mut steps).expect(rt, "memory");
    for event in events {
        assert_eq!(rt; search.advance(&mut budget, &mut steps), *event);
    }
}

// The events after the first eight are these, and the budget is just enough.
fn ends<L: Ledger>(
    rt: &impl Abort,
    alloc: Global,
    system: &System,
    rules: Rules,
    mut budget: u64,
    events: &[Event],
    blank: Blank,
)
    requires name { blank.name ≡ L.name }
    requires parts { blank.parts ≡ L.parts }
    requires some { 0 < blank.parts }
{
    let mut steps = Steps::<L>::new(blank);
    let mut search = Search::new(alloc, system, rules, &mut steps).expect(rt, "memory");
    for _ in 0..8 {
        search.advance(&mut budget, &mut steps);
    }
    for event in events {
        assert_eq!(rt; search.advance(&mut budget, &mut steps), *event);
    }
    assert_eq!(rt; budget, 0);
}

// Why a path is refused, if it is.
fn refusal<L: Ledger>(
    alloc: Global,
    system: &System,
    path: &Path,
    rules: Rules,
    blank: Blank,
) -> Option<ResumeError>
    requires name { blank.name ≡ L.name }
    requires parts { blank.parts ≡ L.parts }
    requires some { 0 < blank.parts }
{
    let mut steps = Steps::<L>::new(blank);
    match Search::resume(alloc, system, path, rules, &mut steps) {
        Ok(_) => None,
        Err(error) => Some(error),
    }
}

#[test]
fn two_equal_columns_are_walked(rt: HostRuntime) {
    let alloc = rt.alloc();
    let system = ones(alloc, &[1, 1, 1], 2).expect(&rt, "a system");
    walks::<Brand>(
        &rt,
        alloc,
        &system,
        Rules::Plain,
        9,
        &[
            Event::Branch(0),
            Event::Solution,
            Event::Branch(1),
            Event::Solution,
            Event::Under(0),
            Event::Finished,
        ],
        Blank::new(1),
    );
}

#[test]
fn systems_without_columns_are_walked(rt: HostRuntime) {
    let alloc = rt.alloc();
    let solved = ones(alloc, &[0], 0).expect(&rt, "a system");
    let unsolved = ones(alloc, &[1], 0).expect(&rt, "a system");
    for rules in [Rules::Plain, Rules::Divisor] {
        for (budget, events) in [
            (9, [Event::Solution, Event::Finished]),
            (0, [Event::Spent, Event::Spent]),
        ] {
            walks::<Brand>(&rt, alloc, &solved, rules, budget, &events, Blank::new(1));
        }
        for budget in [9, 0] {
            let events = [Event::Under(0), Event::Finished];
            walks::<Brand>(&rt, alloc, &unsolved, rules, budget, &events, Blank::new(1));
        }
    }
}

#[test]
fn a_system_without_rows_is_walked(rt: HostRuntime) {
    let alloc = rt.alloc();
    let starts = Vec::from_array(alloc, [0]).expect(&rt, "memory");
    let system = System::sparse(alloc, Vec::new(alloc), starts, Vec::new(alloc)).expect(
        &rt, "a system",
    );
    let events = [Event::Solution, Event::Finished];
    walks::<Brand>(
        &rt,
        alloc,
        &system,
        Rules::Divisor,
        9,
        &events,
        Blank::new(1),
    );
}

#[test]
fn divisors_cut_a_walk(rt: HostRuntime) {
    let alloc = rt.alloc();
    let system = triples(alloc).expect(&rt, "a system");
    let first = [
        Event::Branch(0),
        Event::Branch(1),
        Event::Over(0),
        Event::Branch(2),
        Event::Branch(3),
        Event::Solution,
        Event::Under(1),
        Event::Under(0),
    ];
    walks::<Brand>(&rt, alloc, &system, Rules::Plain, 9, &first, Blank::new(1));
    walks::<Brand>(
        &rt,
        alloc,
        &system,
        Rules::Divisor,
        9,
        &first,
        Blank::new(1),
    );
    let path = path_to(&rt, alloc, 1, &[]);
    assert!(rt;
        matches!(
            refusal::<Brand>(alloc, &system, &path, Rules::Divisor, Blank::new(1)),
            Some(ResumeError::NotNode(Why::Residue(1)))
        )
    );
    assert!(rt; refusal::<Brand>(alloc, &system, &path, Rules::Plain, Blank::new(1)).is_none());
    let last = [Event::Residue(1, 2), Event::Finished];
    ends::<Brand>(&rt, alloc, &system, Rules::Divisor, 5, &last, Blank::new(1));
    let last = [
        Event::Branch(1),
        Event::Branch(2),
        Event::Over(2),
        Event::Under(0),
        Event::Under(0),
        Event::Finished,
    ];
    ends::<Brand>(&rt, alloc, &system, Rules::Plain, 7, &last, Blank::new(1));
}

#[test]
fn paths_are_refused(rt: HostRuntime) {
    let alloc = rt.alloc();
    let system = ones(alloc, &[1, 1, 1], 2).expect(&rt, "a system");
    let path = path_to(&rt, alloc, 1, &[]);
    assert!(rt; refusal::<Brand>(alloc, &system, &path, Rules::Plain, Blank::new(1)).is_none());
    let path = path_to(&rt, alloc, 3, &[]);
    assert!(rt;
        matches!(
            refusal::<Brand>(alloc, &system, &path, Rules::Plain, Blank::new(1)),
            Some(ResumeError::PathRange {
                length: 3,
                columns: 2
            })
        )
    );
    let path = path_to(&rt, alloc, 2, &[0]);
    assert!(rt;
        matches!(
            refusal::<Brand>(alloc, &system, &path, Rules::Plain, Blank::new(1)),
            Some(ResumeError::NotNode(Why::SettledBefore(1)))
        )
    );
    let path = path_to(&rt, alloc, 2, &[]);
    assert!(rt;
        matches!(
            refusal::<Brand>(alloc, &system, &path, Rules::Plain, Blank::new(1)),
            Some(ResumeError::NotNode(Why::Under(0)))
        )
    );
}

// From the path of 30 columns without a yes: 30 branches, a solution, 30 leaves, and the end.
fn ends_from_the_middle<L: Ledger>(
    rt: &impl Abort,
    alloc: Global,
    system: &System,
    path: &Path,
    blank: Blank,
)
    requires name { blank.name ≡ L.name }
    requires parts { blank.parts ≡ L.parts }
    requires some { 0 < blank.parts }
{
    let mut steps = Steps::<L>::new(blank);
    let mut search = Search::resume(alloc, system, path, Rules::Plain, &mut steps).expect(
        rt, "a node",
    );
    let mut budget: u64 = 31;
    for column in 30..60u32 {
        assert_eq!(rt;
            search.advance(&mut budget, &mut steps),
            Event::Branch(column)
        );
    }
    assert_eq!(rt; search.advance(&mut budget, &mut steps), Event::Solution);
    assert_eq!(rt; budget, 0);
    for _ in 0..30 {
        assert_eq!(rt; search.advance(&mut budget, &mut steps), Event::Under(0));
    }
    assert_eq!(rt; search.advance(&mut budget, &mut steps), Event::Finished);
    assert_eq!(rt; search.next(&mut budget, &mut steps), Turn::Finished);
}

#[test]
fn sixty_columns_are_resumed_at_the_thirtieth(rt: HostRuntime) {
    let alloc = rt.alloc();
    let system = ones(alloc, &[30], 60).expect(&rt, "a system");
    let path = path_to(&rt, alloc, 30, &[]);
    ends_from_the_middle::<Brand>(&rt, alloc, &system, &path, Blank::new(1));
}
