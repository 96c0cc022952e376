// Logs of problems in random orders of branching: whole ones are accepted, and those with a line
// changed are judged as a plain judge of the definitions does.
ghost use Rattle.std.specs.Prelude.{◌≤◌, ◌^◌, length};

use crate::tests::Line;
use crate::tests::design_logs::{feed, matrix_of};
use crate::tests::random_logs::{
    COLUMNS, Decisions, Numbers, Plain, ROWS, count_solutions, decided, plain_fault, yes_columns,
};
use crate::{Checker, Fed, LogFault};
use df_matrix::OrbitMatrix;
use df_subsets::Block;
use std::alloc::{AllocError, Global};
use std::process::Abort;

/// A line: an entry, or the representatives of the yes columns of decisions.
#[derive(Clone, Copy)]
enum Written {
    Log(Line<'static>),
    Design(Decisions),
}

/// The targets and entries of a matrix of 3 rows and 4 columns, by the entries of its orbits.
fn plain_of(matrix: &OrbitMatrix) -> Option<Plain> {
    let mut plain = Plain {
        targets: [0; ROWS],
        entries: [0; ROWS * COLUMNS],
    };
    let system = matrix.system();
    if system.rows() as usize != ROWS || system.columns() as usize != COLUMNS {
        return None;
    }
    for row in 0..ROWS {
        plain.targets[row] = system.target(row as u32);
    }
    for orbit in 0..matrix.orbit_count() {
        for row in 0..ROWS {
            if let Some(column) = matrix.kept(orbit) {
                let place = (column as usize).wrapping_mul(ROWS).wrapping_add(row);
                if place < ROWS * COLUMNS {
                    plain.entries[place] = matrix.entry_of_orbit(row as u32, orbit);
                }
            }
        }
    }
    Some(plain)
}

/// An undecided column, at random.
fn open_column(decisions: &Decisions, numbers: &mut Numbers) -> u32 {
    let mut column = numbers.next(COLUMNS as u32);
    for _ in 0..COLUMNS {
        if decisions.get(column as usize).copied().flatten().is_none() {
            return column;
        }
        column = column.wrapping_add(1) % COLUMNS as u32;
    }
    column
}

/// An entry that ends a log: of a row that is over or under, where there is one.
fn dead_entry(plain: &Plain, decisions: &Decisions) -> Option<Line<'static>> {
    for row in 0..ROWS as u32 {
        if plain_fault(plain, decisions, Line::Over(row)).is_none() {
            return Some(Line::Over(row));
        }
        if plain_fault(plain, decisions, Line::Under(row)).is_none() {
            return Some(Line::Under(row));
        }
    }
    None
}

/// A whole log, which branches at random columns, with its design lines.
fn log_of(alloc: Global, plain: &Plain, numbers: &mut Numbers) -> Result<Vec<Written>, AllocError> {
    let mut lines = Vec::new(alloc);
    let mut wanted: Vec<Decisions> = Vec::new(alloc);
    wanted.push([None; COLUMNS])?;
    for _ in 0..100 {
        let Some(present) = wanted.pop() else {
            return Ok(lines);
        };
        if let Some(entry) = dead_entry(plain, &present) {
            lines.push(Written::Log(entry))?;
        } else if plain_fault(plain, &present, Line::Settled).is_none() {
            lines.push(Written::Log(Line::Settled))?;
            lines.push(Written::Design(present))?;
        } else {
            let column = open_column(&present, numbers);
            lines.push(Written::Log(Line::Branch(column)))?;
            wanted.push(decided(&present, column, false))?;
            wanted.push(decided(&present, column, true))?;
        }
    }
    Ok(lines)
}

/// What is still to come of a log, by the definitions.
#[derive(Drop)]
struct Judge {
    plain: Plain,
    wanted: Vec<Decisions>,
    leaf: Option<Decisions>,
    failed: bool,
}

impl Judge {
    fn new(alloc: Global, plain: Plain) -> Result<Judge, AllocError> {
        let mut wanted = Vec::new(alloc);
        wanted.push([None; COLUMNS])?;
        Ok(Judge {
            plain,
            wanted,
            leaf: None,
            failed: false,
        })
    }

    fn closed(&self) -> bool {
        !self.failed && self.leaf.is_none() && self.wanted.is_empty()
    }

    fn fault(&self, line: Written) -> Option<LogFault> {
        if self.failed || self.closed() {
            return Some(LogFault::AfterClose);
        }
        match line {
            Written::Log(line) => {
                if self.leaf.is_some() {
                    return Some(LogFault::DesignWanted);
                }
                let present = self.wanted.last().copied().unwrap_or([None; COLUMNS]);
                plain_fault(&self.plain, &present, line)
            }
            Written::Design(given) => match self.leaf {
                None => Some(LogFault::NotEntry),
                Some(wanted) => differs(&given, &wanted),
            },
        }
    }

    fn answer(&mut self, line: Written) -> Result<Fed, AllocError> {
        if let Some(fault) = self.fault(line) {
            self.failed = true;
            return Ok(Fed::Fault(fault));
        }
        let Written::Log(line) = line else {
            self.leaf = None;
            return Ok(Fed::Ok);
        };
        let present = self.wanted.pop().unwrap_or([None; COLUMNS]);
        match line {
            Line::Settled => {
                self.leaf = Some(present);
                return Ok(Fed::WantsDesign);
            }
            Line::Branch(column) => {
                self.wanted.push(decided(&present, column, false))?;
                self.wanted.push(decided(&present, column, true))?;
            }
            _ => {}
        }
        Ok(Fed::Ok)
    }
}

/// How many yes columns are the same from the first on, where not all are.
fn differs(given: &Decisions, wanted: &Decisions) -> Option<LogFault> {
    let given = yes_columns(given);
    let wanted = yes_columns(wanted);
    for place in 0..COLUMNS {
        if given.get(place) != wanted.get(place) {
            return Some(LogFault::DesignDiffers {
                place: place as i64,
            });
        }
    }
    None
}

/// What a checker answers to a line.
fn checked(
    alloc: Global,
    checker: &mut Checker<'_>,
    matrix: &OrbitMatrix,
    line: Written,
) -> Result<Fed, AllocError> {
    match line {
        Written::Log(line) => Ok(feed(checker, line)),
        Written::Design(decisions) => {
            let mut blocks: Vec<Block> = Vec::new(alloc);
            for column in &yes_columns(&decisions) {
                if *column < matrix.system().columns() {
                    blocks.push(matrix.column_block(*column))?;
                }
            }
            Ok(checker.feed_design(&blocks))
        }
    }
}

/// A line that looks random.
fn random_line(numbers: &mut Numbers) -> Written {
    let mut decisions = [None; COLUMNS];
    for column in 0..COLUMNS {
        decisions[column] = Some(numbers.next(2) == 0);
    }
    match numbers.next(8) {
        0 => Written::Log(Line::Over(numbers.next(4))),
        1 => Written::Log(Line::Under(numbers.next(4))),
        2 => Written::Log(Line::Settled),
        3 => Written::Log(Line::Residue(numbers.next(4), 1 + numbers.next(4))),
        4 | 5 => Written::Log(Line::Branch(numbers.next(5))),
        _ => Written::Design(decisions),
    }
}

/// Feeds lines to a checker and to the plain judge, which answer the same. Whether they close.
fn closes(
    rt: &impl Abort,
    alloc: Global,
    matrix: &OrbitMatrix,
    plain: &Plain,
    lines: &[Written],
) -> bool {
    let mut checker = Checker::new(alloc, matrix).expect(rt, "memory");
    let mut judge = Judge::new(alloc, *plain).expect(rt, "memory");
    for line in lines {
        let told = checked(alloc, &mut checker, matrix, *line).expect(rt, "memory");
        assert_eq!(rt; told, judge.answer(*line).expect(rt, "memory"));
        assert_eq!(rt; checker.closed(), judge.closed());
    }
    if checker.closed() {
        assert_eq!(rt; checker.designs(), count_solutions(plain));
    }
    checker.closed()
}

/// Sources whose matrices have 3 rows and 4 columns.
const SOURCES: [&[u8]; 6] = [
    b"group 7\nmult 6\nk 3\nlambda 2\n",
    b"group 7\nmult 6\nk 3\nlambda 3\n",
    b"group 7\nmult 6\nk 3\nlambda 5\n",
    b"group 6\nk 3\nlambda 4\n",
    b"group 6\nk 3\nlambda 3\n",
    b"group 6\nsubgroup N 3\nk 3\nlambda 2\ninside N 4\n",
];

#[test]
fn logs_in_random_orders_are_accepted_and_changes_are_judged(rt: HostRuntime) {
    let alloc = rt.alloc();
    let mut numbers = Numbers { state: 29 };
    let mut refused: u64 = 0;
    for source in SOURCES {
        let matrix = short_matrix(alloc, source).expect(&rt, "a matrix");
        let plain = plain_of(&matrix).expect(&rt, "3 rows and 4 columns");
        for _ in 0..40u32 {
            let mut lines = log_of(alloc, &plain, &mut numbers).expect(&rt, "memory");
            assert!(rt; closes(&rt, alloc, &matrix, &plain, &lines));
            let place = numbers.next(100) as usize % lines.len().max(1);
            if let Some(line) = lines.get_mut(place) {
                *line = random_line(&mut numbers);
            }
            if !closes(&rt, alloc, &matrix, &plain, &lines) {
                refused = refused.wrapping_add(1);
            }
        }
    }
    assert!(rt; refused >= 100, "only {refused} logs were refused");
}

/// The matrix of a source, which isn't too long.
fn short_matrix(alloc: Global, source: &[u8]) -> Option<OrbitMatrix> {
    if source.len() > 1000 {
        return None;
    }
    matrix_of(alloc, source)
}
