// Leaps over many columns, and systems at the ends of what tables and sets are kept for: worked out by hand.
ghost use Rattle.std.specs.Prelude.{◌≡◌, ◌<◌, ◌≤◌, length};

use crate::tests::callers::ask_next;
use crate::{Event, Search, Turn};
use df_steps::Steps;
use df_system::{MOST_COLUMNS, MOST_ENTRIES, ROW_LIMIT, System};
use df_walk::Rules;
use std::alloc::Global;
use std::marker::Brand;
use std::process::Abort;
use std::sync::ledger::{Blank, Ledger};

// The system of these targets and entries, column after column.
fn dense(alloc: Global, targets: Vec<u32>, entries: Vec<u32>) -> Option<System> {
    if targets.is_empty()
        || targets.len() >= ROW_LIMIT
        || entries.len() % targets.len() != 0
        || entries.len() > MOST_ENTRIES
    {
        return None;
    }
    System::new(alloc, targets, entries).ok()
}

// Two rows with the target 1: the first column has an entry in the one, the last column in the other, and each between them in both.
// So after a yes for the first column only the last one fits, and all between them are leapt over.
fn bridge(alloc: Global, columns: usize) -> Option<System> {
    let targets = Vec::from_array(alloc, [1, 1]).ok()?;
    let mut entries = Vec::new(alloc);
    for column in 0..columns {
        let last = column.wrapping_add(1) == columns;
        entries.push(!last as u32).ok()?;
        entries.push((column > 0) as u32).ok()?;
    }
    dense(alloc, targets, entries)
}

// One call of `next` on a bridge. The walk to its first solution has a node for each length of a path: so a budget that doesn't reach it ends at the path of that length.
fn cross_bridge<L: Ledger>(
    rt: &impl Abort,
    alloc: Global,
    system: &System,
    rules: Rules,
    columns: usize,
    budget: u64,
    blank: Blank,
)
    requires name { blank.name ≡ L.name }
    requires parts { blank.parts ≡ L.parts }
    requires some { 0 < blank.parts }
{
    let mut steps = Steps::<L>::new(blank);
    let mut search = Search::new(alloc, system, rules, &mut steps).expect(rt, "memory");
    let mut asked = Vec::new(alloc);
    let mut left = budget;
    let turn = ask_next(&mut search, &mut left, &mut steps, &mut asked).expect(rt, "memory");
    if budget <= columns as u64 {
        assert_eq!(rt; turn, Turn::Spent);
        assert_eq!(rt; left, 0);
        assert_eq!(rt; asked.len() as u64, budget);
    } else {
        assert_eq!(rt; turn, Turn::Design);
        assert_eq!(rt; left.wrapping_add(columns as u64).wrapping_add(1), budget);
        assert_eq!(rt; asked.len(), columns);
    }
    for (column, yes) in asked.iter().enumerate() {
        assert_eq!(rt; *yes, column == 0 || column.wrapping_add(1) == columns);
    }
}

// Calls of `next` on one search: the budget of each, what it answers, and what it leaves of the budget.
fn turns<L: Ledger>(
    rt: &impl Abort,
    alloc: Global,
    system: &System,
    rules: Rules,
    calls: &[(u64, Turn, u64)],
    blank: Blank,
)
    requires name { blank.name ≡ L.name }
    requires parts { blank.parts ≡ L.parts }
    requires some { 0 < blank.parts }
{
    let mut steps = Steps::<L>::new(blank);
    let mut search = Search::new(alloc, system, rules, &mut steps).expect(rt, "memory");
    for (budget, turn, left) in calls {
        let mut budget = *budget;
        assert_eq!(rt; search.next(&mut budget, &mut steps), *turn);
        assert_eq!(rt; budget, *left);
    }
}

// Answers of `advance` on one search.
fn events<L: Ledger>(
    rt: &impl Abort,
    alloc: Global,
    system: &System,
    rules: Rules,
    wanted: &[Event],
    blank: Blank,
)
    requires name { blank.name ≡ L.name }
    requires parts { blank.parts ≡ L.parts }
    requires some { 0 < blank.parts }
{
    let mut steps = Steps::<L>::new(blank);
    let mut search = Search::new(alloc, system, rules, &mut steps).expect(rt, "memory");
    let mut budget = 100;
    for event in wanted {
        assert_eq!(rt; search.advance(&mut budget, &mut steps), *event);
    }
}

#[test]
fn budgets_end_at_each_node_of_a_leap(rt: HostRuntime) {
    let alloc = rt.alloc();
    let system = bridge(alloc, 140).expect(&rt, "a system");
    for rules in [Rules::Plain, Rules::Divisor] {
        for budget in 0..=142u64 {
            cross_bridge::<Brand>(&rt, alloc, &system, rules, 140, budget, Blank::new(1));
        }
    }
}

#[test]
fn a_leap_goes_over_all_columns(rt: HostRuntime) {
    let alloc = rt.alloc();
    let system = bridge(alloc, MOST_COLUMNS).expect(&rt, "a system");
    for budget in [40000, 65536, 65537] {
        cross_bridge::<Brand>(
            &rt,
            alloc,
            &system,
            Rules::Divisor,
            MOST_COLUMNS,
            budget,
            Blank::new(1),
        );
    }
}

// 12,224 rows with the target 1: the first column has an entry in each even row, the second one in each odd row, and the third one in all.
// The solutions are the first two columns, and the third one. Their nodes: the empty path, yes, yes yes; then yes no, no, no yes, no no, no no yes.
#[test]
fn many_rows_are_searched(rt: HostRuntime) {
    let alloc = rt.alloc();
    let targets = vec![in alloc; 1; 12224].expect(&rt, "memory");
    let mut entries = Vec::new(alloc);
    for place in 0..36672u32 {
        let row = place % 12224;
        let entry = match place / 12224 {
            0 => row % 2 == 0,
            1 => row % 2 == 1,
            _ => true,
        };
        entries.push(entry as u32).expect(&rt, "memory");
    }
    let system = dense(alloc, targets, entries).expect(&rt, "a system");
    let calls = [
        (9, Turn::Design, 6),
        (4, Turn::Spent, 0),
        (1, Turn::Design, 0),
        (0, Turn::Finished, 0),
    ];
    turns::<Brand>(&rt, alloc, &system, Rules::Divisor, &calls, Blank::new(1));
}

// One row with the target 6 over 2 2 4 4: its divisor is 2, and from the third column on 4.
// The solutions are 2 4, twice, and 2 4 with the second 2, twice.
#[test]
fn divisors_count_from_the_first_column_on(rt: HostRuntime) {
    let alloc = rt.alloc();
    let targets = Vec::from_array(alloc, [6]).expect(&rt, "memory");
    let entries = Vec::from_array(alloc, [2, 2, 4, 4]).expect(&rt, "memory");
    let system = dense(alloc, targets, entries).expect(&rt, "a system");
    let wanted = [
        Event::Branch(0),
        Event::Branch(1),
        Event::Residue(0, 4),
        Event::Branch(2),
        Event::Solution,
        Event::Branch(3),
        Event::Solution,
        Event::Under(0),
        Event::Branch(1),
        Event::Branch(2),
        Event::Solution,
        Event::Branch(3),
        Event::Solution,
        Event::Under(0),
        Event::Residue(0, 4),
        Event::Finished,
    ];
    events::<Brand>(&rt, alloc, &system, Rules::Divisor, &wanted, Blank::new(1));
    let calls = [
        (9, Turn::Design, 5),
        (2, Turn::Design, 0),
        (3, Turn::Design, 0),
        (1, Turn::Spent, 0),
        (1, Turn::Design, 0),
        (0, Turn::Finished, 0),
    ];
    turns::<Brand>(&rt, alloc, &system, Rules::Divisor, &calls, Blank::new(1));
}

// One row with the target 7 over 2 2 4 4: no path has a residue by the plain rules, and the empty one has by the others.
#[test]
fn an_odd_need_is_a_residue_at_once(rt: HostRuntime) {
    let alloc = rt.alloc();
    let targets = Vec::from_array(alloc, [7]).expect(&rt, "memory");
    let entries = Vec::from_array(alloc, [2, 2, 4, 4]).expect(&rt, "memory");
    let system = dense(alloc, targets, entries).expect(&rt, "a system");
    let residue = [Event::Residue(0, 2), Event::Finished];
    events::<Brand>(&rt, alloc, &system, Rules::Divisor, &residue, Blank::new(1));
    let finished = [(0, Turn::Finished, 0)];
    turns::<Brand>(
        &rt,
        alloc,
        &system,
        Rules::Divisor,
        &finished,
        Blank::new(1),
    );
    let calls = [(1, Turn::Spent, 0), (1, Turn::Spent, 0)];
    turns::<Brand>(&rt, alloc, &system, Rules::Plain, &calls, Blank::new(1));
}
