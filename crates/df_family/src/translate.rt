// Translates of blocks, and the translations that fix a block.
ghost use Rattle.std.specs.Prelude.{◌≡◌, ◌≤◌, ◌<◌, ◌&&◌, All, length, filter};
ghost use Rattle.df_lists.specs.NumberSets.{has_member};
ghost use Rattle.df_group.specs.Elements.{order_of, group_of, shifted as shifted_point};
ghost use Rattle.df_group.specs.Subgroups.{IsSubgroup};
ghost use Rattle.df_lang.specs.Problems.{point_count};
ghost use Rattle.df_family.specs.Translates.{translate, fixes, stabilizer as stabilizer_of, stabilizer_under as stabilizer_under_of};

use crate::problem_pieces::{order, sum};
use df_group::{Elem, Subgroup};
use df_lang::Problem;
use df_sets::NumberSet;
use df_subsets::{Block, Point};

/// How many elements g of the group there are with block + g = block, where the block's points lie below v.
pub fn stabilizer(problem: &Problem, block: &Block) -> u32
    requires { All (λ p. p < point_count problem.now) block.now }
    ensures count { result ≡ stabilizer_of problem.now block.now }
    ensures some { result ≤ order_of problem.now.group }
{
    let elements = Subgroup::whole(&problem.shape);
    u32::from(fixing(problem, &elements, block).len())
}

/// How many elements g of a subgroup of the group there are with block + g = block, where the block's points lie below v.
pub fn stabilizer_under(problem: &Problem, shifts: &Subgroup, block: &Block) -> u8
    requires subgroup { IsSubgroup problem.now.group shifts.now }
    requires points { All (λ p. p < point_count problem.now) block.now }
    ensures count { result ≡ stabilizer_under_of problem.now shifts.now block.now }
    ensures some { result ≤ length shifts.now }
{
    fixing(problem, shifts, block).len()
}

/// The elements g of a subgroup with block + g = block.
pub fn fixing(problem: &Problem, shifts: &Subgroup, block: &Block) -> NumberSet
    requires subgroup { IsSubgroup problem.now.group shifts.now }
    requires points { All (λ p. p < point_count problem.now) block.now }
    ensures { result ≡ filter (fixes problem.now block.now) shifts.now }
{
    let mut fixing = NumberSet::empty();
    for g in 0..order(problem) {
        if is_fixing(problem, shifts, block, Elem(g)) {
            fixing.insert(g);
        }
    }
    fixing
}

// Whether g is one of the shifts and block + g = block.
fn is_fixing(problem: &Problem, shifts: &Subgroup, block: &Block, g: Elem) -> bool
    requires g { g < order_of problem.now.group }
    requires points { All (λ p. p < point_count problem.now) block.now }
    ensures { result ≡ (has_member shifts.now g && fixes problem.now block.now g) }
{
    shifts.has(g) && translated(problem, block, g) == *block
}

/// block + g.
pub fn translated(problem: &Problem, block: &Block, g: Elem) -> Block
    requires g { g < order_of problem.now.group }
    requires points { All (λ p. p < point_count problem.now) block.now }
    ensures { result ≡ translate problem.now block.now g }
{
    let points = block.points();
    let mut translated = Block::empty();
    for p in points.as_slice() {
        translated.insert(shifted(problem, g, *p));
    }
    translated
}

// Where adding g carries the point.
fn shifted(problem: &Problem, g: Elem, p: Point) -> Point
    requires g { g < order_of problem.now.group }
    requires p { p < point_count problem.now }
    ensures point { result ≡ shifted_point (group_of problem.now.group) g p }
    ensures below { result < point_count problem.now }
    ensures few { point_count problem.now ≤ 128 }
{
    if p.0 < order(problem) {
        Point(sum(problem, Elem(p.0), g).0)
    } else {
        p
    }
}
