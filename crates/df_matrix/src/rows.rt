// The rows that the pairs of a block's points lie in.
ghost use Rattle.std.specs.Prelude.{◌≡◌, ◌+◌, ◌≤◌, [], ◌∷◌, ◌++◌, ℕ, List, length, map};
ghost use Rattle.std.specs.List.Sorted.{IsNonDecreasing};
ghost use Rattle.arrayvec.specs.ArrayVec.{array_vec_len};
ghost use Rattle.df_lists.specs.NumberSets.{IsSet};
ghost use Rattle.df_subsets.specs.Subsets.{choose};
ghost use Rattle.df_lang.specs.Problems.{point_count};
ghost use Rattle.df_matrix.specs.MatrixParts.{AreRowsOf};

use crate::orbits::ProblemOrbits;
use arrayvec::ArrayVec;
use df_subsets::{Block, Point};

/// Rows of pairs, one for each pair of points of a block of at most 16 points.
pub type Rows = ArrayVec<u32, 120>;

// Adds the rows of the pairs of a point and each of those that follow it in a block.
fn add_rows(rows: &mut Rows, orbits: &ProblemOrbits, p: Point, later: &[Point])
    requires block { IsSet (point_count orbits.now) (p ∷ later.now) }
    requires room { array_vec_len rows.old + length later.now ≤ 120 }
    ensures { (done : List (List ℕ)) → AreRowsOf orbits.now done rows.old.items → AreRowsOf orbits.now (done ++ map (λ q. p ∷ q ∷ []) later.now) rows.new.items }
{
    for q in later {
        rows.push(orbits.row_of(p, *q));
    }
}

// The rows of a block's pairs, in the order of the pairs.
fn listed_rows(orbits: &ProblemOrbits, block: &Block) -> Rows
    requires block { IsSet (point_count orbits.now) block.now }
    requires size { length block.now ≤ 16 }
    ensures { AreRowsOf orbits.now (choose block.now 2) result.items }
{
    let points = block.points();
    let mut rows = ArrayVec::new();
    for i in 0..points.len() {
        add_rows(&mut rows, orbits, points[i], &points.as_slice()[i + 1..]);
    }
    rows
}

/// The rows of the pairs of a block's points, each as often as pairs lie in it, in order.
pub fn sorted_rows(orbits: &ProblemOrbits, block: &Block) -> Rows
    requires block { IsSet (point_count orbits.now) block.now }
    requires size { length block.now ≤ 16 }
    ensures rows { AreRowsOf orbits.now (choose block.now 2) result.items }
    ensures sorted { IsNonDecreasing result.items }
{
    let mut rows = listed_rows(orbits, block);
    rows.as_mut_slice().sort_unstable();
    rows
}
