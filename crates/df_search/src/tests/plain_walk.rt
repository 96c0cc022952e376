// The walk by a plain recursion from its definition: every need, cap and divisor is computed from the entries at each question.
ghost use Rattle.std.specs.Prelude.{◌≢◌};

use crate::{Event, OutOfMemory, Why};
use df_walk::Rules;
use std::alloc::Global;

/// Targets, and entries column after column. Each entry is a number up to 9, times the scale.
#[derive(Drop)]
pub(crate) struct PlainSystem {
    pub(crate) targets: Vec<u32>,
    pub(crate) entries: Vec<u32>,
    pub(crate) columns: usize,
    pub(crate) scale: u32,
}

/// An entry of the walk, and its path.
#[derive(Drop)]
pub(crate) struct PlainStep {
    pub(crate) path: Vec<bool>,
    pub(crate) event: Event,
}

/// A length as an answer has it.
pub(crate) fn number(n: usize) -> u32 {
    u32::try_from(n).unwrap_or(u32::MAX)
}

/// Whether a budget pays for this entry.
pub(crate) fn is_node(event: Event) -> bool {
    matches!(event, Event::Branch(_) | Event::Solution)
}

/// A path with one more column.
fn longer(alloc: Global, path: &[bool], yes: bool) -> Result<Vec<bool>, OutOfMemory> {
    let mut more = Vec::from_slice(alloc, path)?;
    more.push(yes)?;
    Ok(more)
}

/// Appends a path, and after it all its extensions by at most this many columns.
pub(crate) fn push_paths(
    alloc: Global,
    path: Vec<bool>,
    left: usize,
    paths: &mut Vec<Vec<bool>>,
) -> Result<(), OutOfMemory> {
    if left > 0 {
        push_paths(alloc, longer(alloc, &path, true)?, left - 1, paths)?;
        push_paths(alloc, longer(alloc, &path, false)?, left - 1, paths)?;
    }
    paths.push(path)?;
    Ok(())
}

impl PlainSystem {
    fn entry(&self, row: usize, column: usize) -> u64 {
        let place = column.wrapping_mul(self.targets.len()).wrapping_add(row);
        self.entries.get(place).copied().unwrap_or(0) as u64
    }

    fn target(&self, row: usize) -> u64 {
        self.targets.get(row).copied().unwrap_or(0) as u64
    }

    fn taken(&self, row: usize, path: &[bool]) -> u64 {
        let mut sum: u64 = 0;
        for (column, yes) in path.iter().enumerate() {
            if *yes {
                sum = sum.wrapping_add(self.entry(row, column));
            }
        }
        sum
    }

    fn cap(&self, row: usize, length: usize) -> u64 {
        let mut sum: u64 = 0;
        for column in length..self.columns {
            sum = sum.wrapping_add(self.entry(row, column));
        }
        sum
    }

    fn divides_all(&self, divisor: u64, row: usize, length: usize) -> bool
        requires { divisor ≢ 0 }
    {
        (length..self.columns).all(|column| self.entry(row, column) % divisor == 0)
    }

    /// The greatest multiple of the scale, up to 9 times it, that divides all entries from a column on, and 0 where they are all 0.
    fn divisor(&self, row: usize, length: usize) -> u64 {
        if self.cap(row, length) == 0 {
            return 0;
        }
        let mut greatest = 0;
        for times in 1..10u64 {
            let divisor = times.wrapping_mul(self.scale as u64);
            if divisor > 0 && self.divides_all(divisor, row, length) {
                greatest = divisor;
            }
        }
        greatest
    }

    fn is_over(&self, row: usize, path: &[bool]) -> bool {
        self.taken(row, path) > self.target(row)
    }

    fn is_under(&self, row: usize, path: &[bool]) -> bool {
        self.taken(row, path)
            .wrapping_add(self.cap(row, path.len()))
            < self.target(row)
    }

    /// The divisor, where it is at least 2 and doesn't divide the need. The row isn't over.
    fn residue(&self, row: usize, path: &[bool]) -> Option<u32> {
        let divisor = self.divisor(row, path.len());
        let need = self.target(row).wrapping_sub(self.taken(row, path));
        if divisor > 1 && need % divisor != 0 {
            u32::try_from(divisor).ok()
        } else {
            None
        }
    }

    pub(crate) fn is_settled(&self, path: &[bool]) -> bool {
        (0..self.targets.len()).all(|row| self.taken(row, path) == self.target(row))
    }

    /// The entry of a path.
    pub(crate) fn entry_at(&self, rules: Rules, path: &[bool]) -> Event {
        for row in 0..self.targets.len() {
            if self.is_over(row, path) {
                return Event::Over(number(row));
            }
        }
        for row in 0..self.targets.len() {
            if self.is_under(row, path) {
                return Event::Under(number(row));
            }
        }
        if rules == Rules::Divisor {
            for row in 0..self.targets.len() {
                if let Some(divisor) = self.residue(row, path) {
                    return Event::Residue(number(row), divisor);
                }
            }
        }
        if self.is_settled(path) {
            Event::Solution
        } else {
            Event::Branch(number(path.len()))
        }
    }

    /// Appends the walk from a path, below which this many columns are to come.
    fn push_walk(
        &self,
        alloc: Global,
        rules: Rules,
        path: Vec<bool>,
        left: usize,
        walk: &mut Vec<PlainStep>,
    ) -> Result<(), OutOfMemory> {
        let event = self.entry_at(rules, &path);
        let yes = longer(alloc, &path, true)?;
        let no = longer(alloc, &path, false)?;
        walk.push(PlainStep { path, event })?;
        if left > 0 && matches!(event, Event::Branch(_)) {
            self.push_walk(alloc, rules, yes, left - 1, walk)?;
            self.push_walk(alloc, rules, no, left - 1, walk)?;
        }
        Ok(())
    }

    /// The walk from the empty path.
    pub(crate) fn walk(&self, alloc: Global, rules: Rules) -> Result<Vec<PlainStep>, OutOfMemory> {
        let mut walk = Vec::new(alloc);
        self.push_walk(alloc, rules, Vec::new(alloc), self.columns, &mut walk)?;
        Ok(walk)
    }

    /// Why a path isn't a node, if it isn't.
    pub(crate) fn refusal(&self, rules: Rules, path: &[bool]) -> Option<Why> {
        for length in 0..path.len() {
            if self.is_settled(&path[..length]) {
                return Some(Why::SettledBefore(number(length)));
            }
        }
        match self.entry_at(rules, path) {
            Event::Over(row) => Some(Why::Over(row)),
            Event::Under(row) => Some(Why::Under(row)),
            Event::Residue(row, _) => Some(Why::Residue(row)),
            _ => None,
        }
    }
}
