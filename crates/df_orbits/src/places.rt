// The places of the blocks of one size, by a table of binomials. The blocks after a given one are those that agree with it
// before one of its points and have a later point in that place; for each point and place the table has how many those are. So
// the place of a block is found by one look for each of its points, where a rank by its definition takes a sum over all points.
ghost use Rattle.std.specs.Prelude.{◌≡◌, ◌<◌, ◌≤◌, ◌-◌, ◌+◌, length, slice_get, Some, IfOk};
ghost use Rattle.df_lists.specs.NumberSets.{IsSet};
ghost use Rattle.df_subsets.specs.Subsets.{subsets, binomial as binomial_of, rank as rank_of};

use crate::OutOfMemory;
use crate::orbits::MOST_SUMMED;
use df_subsets::{Block, binomial};
use std::alloc::Global;
use std::marker::Model;

/// All blocks of `size` points below `points`, seen as these two numbers.
#[derive(Drop)]
pub struct Places {
    points: u8,
    size: u8,
    all: u32,
    later: Vec<u32>,
}

impl Model for Places {
    ghost use Rattle.std.specs.Prelude.{ℕ};

    ghost Value = { ℕ × ℕ };

    ghost use Rattle.df_orbits.specs.LookupTables.{AreLater};

    ghost view = { λ a. (a.points, a.size) };

    ghost invariant = { λ a. AreLater a.points a.size a.all a.later.items };
}

impl Places {
    /// There are at most `MOST_SUMMED` of these blocks.
    pub fn new(alloc: Global, points: u8, size: u8) -> Result<Places, OutOfMemory>
        requires small { points ≤ 128 }
        requires some { 1 ≤ size }
        requires within { size ≤ points }
        requires few { binomial_of points size ≤ MOST_SUMMED }
        ensures { IfOk result (λ places. places ≡ (points, size)) }
    {
        let width = usize::from(points);
        let mut later = Vec::new(alloc);
        for place in 0..(usize::from(size) + 1) * width {
            let taken = (place / width) as u8;
            later.push(after(points, size, taken, (place % width) as u8))?;
        }
        Ok(Places {
            points,
            size,
            all: binomial(points, size) as u32,
            later,
        })
    }

    /// How many blocks there are.
    pub fn count(&self) -> usize
        ensures count { result ≡ binomial_of self.now.0 self.now.1 }
        ensures few { result ≤ MOST_SUMMED }
    {
        self.all as usize
    }

    /// The place of a block, from 0.
    pub fn rank(&self, block: &Block) -> usize
        requires within { IsSet self.now.0 block.now }
        requires size { length block.now ≡ self.now.1 }
        ensures rank { result ≡ rank_of self.now.0 block.now }
        ensures place { slice_get (subsets self.now.0 self.now.1) result ≡ Some block.now }
        ensures below { result < binomial_of self.now.0 self.now.1 }
    {
        let width = usize::from(self.points);
        let points = block.points();
        // the blocks that come after: those that agree before a point and have a later one in its place
        let mut later = 0;
        let mut row = 0;
        for p in points.as_slice() {
            later += self.later[row + usize::from(p.0)];
            row += width;
        }
        (self.all - 1 - later) as usize
    }
}

// In how many ways a block of `size` points that has `taken` points up to p, and others after p, can end.
fn after(points: u8, size: u8, taken: u8, p: u8) -> u32
    requires small { points ≤ 128 }
    requires within { size ≤ points }
    requires taken { taken ≤ size }
    requires point { p < points }
    requires few { binomial_of points size ≤ MOST_SUMMED }
    ensures { taken ≤ p + 1 → result ≡ binomial_of (points - 1 - p) (size - taken) }
{
    if taken > p + 1 || size - taken > points - 1 - p {
        return 0;
    }
    binomial(points - 1 - p, size - taken) as u32
}
