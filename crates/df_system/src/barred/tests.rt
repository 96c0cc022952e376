ghost use Rattle.std.specs.Prelude.{◌≡◌, ℕ, ◌+◌, ◌-◌, ◌<◌, ◌≤◌, length, false};
ghost use Rattle.df_system.specs.BarredColumns.{bars_row};

use crate::{BarredColumns, Cell, System};
use std::alloc::Global;
use std::process::Abort;

/// A system whose entries look random, but for a last row of ones.
#[derive(Clone, Copy)]
struct Plain {
    seed: u32,
    rows: u32,
    columns: u32,
}

impl Plain {
    /// The entry of a row and a column: the greater the seed's rest by 4, the fewer are positive.
    fn entry(self, row: u32, column: u32) -> u32 {
        if row.wrapping_add(1) == self.rows {
            return 1;
        }
        let mixed = self
            .seed
            .wrapping_mul(31)
            .wrapping_add(row)
            .wrapping_mul(65537)
            .wrapping_add(column)
            .wrapping_mul(2654435761);
        (mixed >> 13) % (5 - self.seed % 4)
    }

    /// Whether a row of the mask has a positive entry in the column.
    fn is_barred(self, mask: u32, column: u32) -> bool {
        for row in 0..self.rows {
            if (mask >> (row % 32)) % 2 == 1 && self.entry(row, column) > 0 {
                return true;
            }
        }
        false
    }

    fn system(self, rt: &impl Abort, alloc: Global) -> System {
        let targets = vec![in alloc; 1; self.rows as usize].expect(rt, "memory");
        let mut entries = Vec::new(alloc);
        for column in 0..self.columns {
            for row in 0..self.rows {
                entries.push(self.entry(row, column)).expect(rt, "memory");
            }
        }
        assert!(rt;
            !targets.is_empty()
                && targets.len() < 4294967296
                && entries.len() % targets.len() == 0
                && entries.len() <= 16777216
        );
        System::new(alloc, targets, entries).expect(rt, "a system")
    }
}

/// Each run is as long as a plain computation says.
fn assert_same(rt: &impl Abort, barred: &BarredColumns, plain: Plain, mask: u32)
    requires { plain.columns ≡ length barred.now.system.columns }
{
    let mut expected: u32 = 0;
    for after in 0..plain.columns {
        let column = plain.columns - 1 - after;
        let following = if column % 64 == 63 { 0 } else { expected };
        expected = if plain.is_barred(mask, column) {
            following.wrapping_add(1)
        } else {
            0
        };
        assert_eq!(rt; barred.run(column), expected, "column {column}");
    }
}

/// Each way to bar the rows from this one on, by levels of one row and of two, with a comparison after each step.
fn try_rows(rt: &impl Abort, barred: &mut BarredColumns, plain: Plain, row: u32, mask: u32)
    requires columns { plain.columns ≡ length barred.old.system.columns }
    requires rows { plain.rows ≡ length barred.old.system.targets }
    requires within { row ≤ plain.rows }
    requires some { 0 < length barred.old.levels }
    requires room { length barred.old.levels + (plain.rows - row) ≤ plain.columns + 1 }
    requires fresh { (q : ℕ) → row ≤ q → bars_row barred.old.levels q ≡ false }
    ensures { barred.new ≡ barred.old }
{
    assert_same(rt, barred, plain, mask);
    if row == plain.rows {
        return;
    }
    let with_row = mask | (1 << (row % 32));
    barred.push();
    barred.bar(row);
    try_rows(rt, barred, plain, row + 1, with_row);
    barred.pop();
    try_rows(rt, barred, plain, row + 1, mask);
    if row + 1 < plain.rows {
        barred.push();
        barred.bar(row + 1);
        barred.bar(row);
        try_rows(rt, barred, plain, row + 2, with_row | (2 << (row % 31)));
        barred.pop();
    }
}

#[test]
fn runs_are_those_of_a_plain_computation(rt: HostRuntime) {
    let alloc = rt.alloc();
    let mut seed: u32 = 0;
    for columns in [5, 63, 64, 65, 127, 128, 129, 200] {
        for rows in 1..6 {
            seed = seed.wrapping_add(1);
            let plain = Plain {
                seed,
                rows,
                columns,
            };
            let system = plain.system(&rt, alloc);
            assert!(rt; system.rows() == rows && system.columns() == columns && rows <= columns);
            let mut barred = BarredColumns::new(alloc, &system).expect(&rt, "memory");
            try_rows(&rt, &mut barred, plain, 0, 0);
        }
    }
}

/// Where the sets of the rows take one word too many, none are kept.
#[test]
fn too_many_rows_bar_nothing(rt: HostRuntime) {
    let alloc = rt.alloc();
    for (rows, run) in [(4194304, 1), (4194305, 0)] {
        let targets = vec![in alloc; 1; rows].expect(&rt, "memory");
        let starts = Vec::from_array(alloc, [0, 1]).expect(&rt, "memory");
        let cells = Vec::from_array(alloc, [Cell { row: 2, value: 1 }]).expect(&rt, "memory");
        let system = System::sparse(alloc, targets, starts, cells).expect(&rt, "a system");
        assert!(rt; system.rows() as usize == rows && system.rows() > 2 && system.columns() == 1);
        let mut barred = BarredColumns::new(alloc, &system).expect(&rt, "memory");
        barred.bar(1);
        assert_eq!(rt; barred.run(0), 0);
        barred.bar(2);
        assert_eq!(rt; barred.run(0), run);
    }
}

/// A number of levels more.
fn push_levels(barred: &mut BarredColumns, levels: u32)
    requires { length barred.old.levels + levels ≤ length barred.old.system.columns + 1 }
    ensures levels { length barred.new.levels ≡ length barred.old.levels + levels }
    ensures system { barred.new.system ≡ barred.old.system }
{
    for _ in 0..levels {
        barred.push();
    }
}

/// A set of 65,536 columns takes 1,025 words, so that 1,023 levels have theirs.
#[test]
fn too_many_levels_bar_nothing(rt: HostRuntime) {
    let alloc = rt.alloc();
    let targets = vec![in alloc; 1; 1].expect(&rt, "memory");
    let entries = vec![in alloc; 1; 65536].expect(&rt, "memory");
    let system = System::new(alloc, targets, entries).expect(&rt, "a system");
    assert!(rt; system.rows() == 1 && system.columns() == 65536);
    let mut barred = BarredColumns::new(alloc, &system).expect(&rt, "memory");
    barred.bar(0);
    push_levels(&mut barred, 1022);
    assert_eq!(rt;
        (barred.run(0), barred.run(64), barred.run(65535)),
        (64, 64, 1)
    );
    barred.push();
    assert_eq!(rt;
        (barred.run(0), barred.run(64), barred.run(65535)),
        (0, 0, 0)
    );
    barred.pop();
    assert_eq!(rt;
        (barred.run(0), barred.run(64), barred.run(65535)),
        (64, 64, 1)
    );
}
