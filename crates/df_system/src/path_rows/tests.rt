ghost use Rattle.std.specs.Prelude.{◌≡◌, ◌<◌, ◌≤◌, length};

use crate::{PathRows, Rules, System};
use df_steps::Steps;
use std::alloc::Global;
use std::marker::Brand;
use std::process::Abort;
use std::sync::ledger::{Blank, Ledger};

/// A system whose entries and targets look random, and whose entries have a common divisor now and then.
#[derive(Clone, Copy)]
struct Plain {
    seed: u32,
    rows: u32,
    columns: u32,
}

/// What a plain computation says of a row under the yes columns of a mask, where the columns from one on are undecided.
#[derive(Clone, Copy)]
struct Seen {
    over: bool,
    short: bool,
    divisor: u32,
    residue: bool,
}

impl Plain {
    fn mixed(self, row: u32, column: u32) -> u32 {
        self.seed
            .wrapping_mul(31)
            .wrapping_add(row)
            .wrapping_mul(65537)
            .wrapping_add(column)
            .wrapping_mul(2654435761)
            >> 13
    }

    fn entry(self, row: u32, column: u32) -> u32 {
        (self.mixed(row, column) % 4).wrapping_mul(1 + self.mixed(row, 77) % 3)
    }

    fn target(self, row: u32) -> u32 {
        self.mixed(row, 99) % 9
    }

    /// The entries of a row in the columns of the mask, added up.
    fn taken(self, mask: u32, row: u32) -> u32 {
        let mut taken: u32 = 0;
        for column in 0..self.columns {
            if (mask >> (column % 32)) % 2 == 1 {
                taken = taken.wrapping_add(self.entry(row, column));
            }
        }
        taken
    }

    /// The entries of a row from a column on, added up.
    fn later(self, row: u32, from: u32) -> u32 {
        let mut later: u32 = 0;
        for column in from..self.columns {
            later = later.wrapping_add(self.entry(row, column));
        }
        later
    }

    /// The greatest number that divides all of them, and 0 where all are 0.
    fn divisor(self, row: u32, from: u32) -> u32 {
        if self.later(row, from) == 0 {
            return 0;
        }
        let mut greatest = 1;
        for divisor in 2..10u32 {
            let mut divides = true;
            for column in from..self.columns {
                divides = divides && self.entry(row, column) % divisor == 0;
            }
            if divides {
                greatest = divisor;
            }
        }
        greatest
    }

    fn seen(self, mask: u32, from: u32, row: u32) -> Seen {
        let target = self.target(row);
        let taken = self.taken(mask, row);
        let over = taken > target;
        let need = target.wrapping_sub(taken);
        let divisor = self.divisor(row, from);
        Seen {
            over,
            short: !over && self.later(row, from) < need,
            divisor,
            residue: !over && divisor > 1 && need % divisor != 0,
        }
    }

    fn system(self, rt: &impl Abort, alloc: Global) -> Option<System> {
        let mut targets = Vec::new(alloc);
        for row in 0..self.rows {
            targets.push(self.target(row)).expect(rt, "memory");
        }
        let mut entries = Vec::new(alloc);
        for column in 0..self.columns {
            for row in 0..self.rows {
                entries.push(self.entry(row, column)).expect(rt, "memory");
            }
        }
        assert!(rt;
            !targets.is_empty()
                && targets.len() < 4294967296
                && entries.len() % targets.len() == 0
                && entries.len() <= 16777216
        );
        System::new(alloc, targets, entries).ok()
    }
}

/// What is said of the rows as they are.
fn assert_rows(rt: &impl Abort, rows: &PathRows, plain: Plain, mask: u32)
    requires rows { plain.rows ≡ length rows.now.system.targets }
{
    let mut over = None;
    let mut met = true;
    for row in 0..plain.rows {
        let target = plain.target(row);
        let taken = plain.taken(mask, row);
        if taken > target && over.is_none() {
            over = Some(row);
        }
        met = met && taken == target;
        assert_eq!(rt; rows.need(row), (target as u64).checked_sub(taken as u64));
    }
    assert_eq!(rt; rows.first_over(), over);
    assert_eq!(rt; rows.is_over(), over.is_some());
    assert_eq!(rt; rows.is_met(), met);
}

/// What is said of the columns from each one on.
fn assert_limit(rt: &impl Abort, rows: &PathRows, plain: Plain, rules: Rules, mask: u32)
    requires columns { plain.columns ≡ length rows.now.system.columns }
    requires rows { plain.rows ≡ length rows.now.system.targets }
    requires few { plain.columns < 32 }
{
    let divides = matches!(rules, Rules::Divisor);
    let mut limit = plain.columns + 1;
    for from in 0..plain.columns + 1 {
        let mut short = None;
        let mut residue = None;
        let mut dead = false;
        for row in 0..plain.rows {
            let seen = plain.seen(mask, from, row);
            assert_eq!(rt; rows.is_short(row, from), seen.short);
            if seen.short && short.is_none() {
                short = Some(row);
            }
            if divides && seen.residue && residue.is_none() {
                residue = Some((row, seen.divisor));
            }
            dead = dead || seen.over || seen.short || (divides && seen.residue);
        }
        assert_eq!(rt; rows.least_short(from), short);
        if rows.first_over().is_none() {
            assert_eq!(rt; rows.least_residue(from), residue);
        }
        if dead && limit > from {
            limit = from;
        }
    }
    assert_eq!(rt; rows.limit(), limit);
}

/// What is said of each column.
fn assert_columns<L: Ledger>(
    rt: &impl Abort,
    rows: &PathRows,
    plain: Plain,
    mask: u32,
    steps: &mut Steps<L>,
)
    requires columns { plain.columns ≡ length rows.now.system.columns }
{
    let mut run: u32 = 0;
    for later in 0..plain.columns {
        let column = plain.columns - later - 1;
        let mut fits = true;
        let mut barred = false;
        for row in 0..plain.rows {
            let entry = plain.entry(row, column);
            let taken = plain.taken(mask, row);
            let target = plain.target(row);
            fits = fits && (entry == 0 || taken.wrapping_add(entry) <= target);
            barred = barred || (entry > 0 && taken >= target);
        }
        assert_eq!(rt; rows.fits(column, steps), fits);
        run = if barred { run.wrapping_add(1) } else { 0 };
        assert_eq!(rt; rows.run(column), run);
    }
}

/// Takes the columns of a mask, with all answers compared after each, and gives them back.
fn take_all<L: Ledger>(
    rt: &impl Abort,
    rows: &mut PathRows,
    plain: Plain,
    rules: Rules,
    mask: u32,
    blank: Blank,
)
    requires columns { plain.columns ≡ length rows.old.system.columns }
    requires rows { plain.rows ≡ length rows.old.system.targets }
    requires few { plain.columns < 32 }
    requires none { length rows.old.chosen ≡ 0 }
    requires name { blank.name ≡ L.name }
    requires parts { blank.parts ≡ L.parts }
    requires blanks { 0 < blank.parts }
{
    let mut steps = Steps::<L>::new(blank);
    let mut taken: u32 = 0;
    for column in 0..plain.columns {
        if (mask >> (column % 32)) % 2 == 1 {
            rows.take(column, &mut steps);
            taken |= 1 << (column % 32);
            assert_rows(rt, rows, plain, taken);
            assert_limit(rt, rows, plain, rules, taken);
            assert_columns(rt, rows, plain, taken, &mut steps);
        }
    }
    while let Some(column) = rows.undo(&mut steps) {
        taken ^= 1 << (column % 32);
        assert_rows(rt, rows, plain, taken);
        assert_limit(rt, rows, plain, rules, taken);
        assert_columns(rt, rows, plain, taken, &mut steps);
    }
    assert_eq!(rt; taken, 0);
}

/// The columns of one mask, on a system that is the plain one.
fn try_mask(
    rt: &impl Abort,
    alloc: Global,
    system: &System,
    plain: Plain,
    rules: Rules,
    mask: u32,
) {
    assert!(rt; system.rows() == plain.rows);
    assert!(rt; system.columns() == plain.columns);
    assert!(rt; plain.columns < 32);
    let mut rows = PathRows::new(alloc, system, rules).expect(rt, "memory");
    take_all::<Brand>(rt, &mut rows, plain, rules, mask, Blank::new(1));
}

#[test]
fn answers_are_those_of_a_plain_computation(rt: HostRuntime) {
    let alloc = rt.alloc();
    for seed in 0..40u32 {
        let plain = Plain {
            seed,
            rows: 1 + seed % 4,
            columns: 1 + seed % 5,
        };
        if let Some(system) = plain.system(&rt, alloc) {
            for mask in 0..32 {
                try_mask(&rt, alloc, &system, plain, Rules::Plain, mask);
                try_mask(&rt, alloc, &system, plain, Rules::Divisor, mask);
            }
        }
    }
}

/// Needs that are too great for their deadlines to be kept.
#[test]
fn great_needs_have_limits(rt: HostRuntime) {
    let alloc = rt.alloc();
    let targets = Vec::from_array(alloc, [700000, 1]).expect(&rt, "memory");
    let entries = Vec::from_array(alloc, [400000, 1, 400000, 1, 300000, 1]).expect(&rt, "memory");
    let system = System::new(alloc, targets, entries).expect(&rt, "a system");
    assert!(rt; system.rows() == 2 && system.columns() == 3);
    let rows = PathRows::new(alloc, &system, Rules::Plain).expect(&rt, "memory");
    assert_eq!(rt; rows.limit(), 2);
    assert_eq!(rt; (rows.is_short(0, 1), rows.is_short(0, 2)), (false, true));
    let targets = Vec::from_array(alloc, [600000, 1]).expect(&rt, "memory");
    let entries = Vec::from_array(alloc, [400000, 1, 400000, 1, 400000, 1]).expect(&rt, "memory");
    let system = System::new(alloc, targets, entries).expect(&rt, "a system");
    assert!(rt; system.rows() == 2 && system.columns() == 3);
    let rows = PathRows::new(alloc, &system, Rules::Divisor).expect(&rt, "memory");
    assert_eq!(rt; rows.limit(), 0);
}
