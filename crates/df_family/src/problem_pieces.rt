// What the calculations read of a problem.
ghost use Rattle.std.specs.Prelude.{◌≡◌, ◌+◌, ◌≤◌, ◌<◌, [], ◌∷◌, drop, length, All, IfSome, MatchOption};
ghost use Rattle.df_lists.specs.NumberSets.{IsSet};
ghost use Rattle.df_group.specs.Elements.{order_of, group_of, minus};
ghost use Rattle.df_lang.specs.Problems.{IsStated, point_count};
ghost use Rattle.df_family.specs.Tables.{fixed_point as fixed_point_of};

use df_group::Elem;
use df_lang::{Member, Problem};
use df_subsets::Point;

/// The number of elements of the group.
pub fn order(problem: &Problem) -> u8
    ensures order { result ≡ order_of problem.now.group }
    ensures low { 2 ≤ result }
    ensures high { result ≤ 128 }
    ensures rules { IsStated problem.now }
{
    problem.shape.order()
}

/// a + b.
pub fn sum(problem: &Problem, a: Elem, b: Elem) -> Elem
    requires a { a < order_of problem.now.group }
    requires b { b < order_of problem.now.group }
    ensures sum { result ≡ (group_of problem.now.group).plus a b }
    ensures below { result < order_of problem.now.group }
{
    problem.shape.add(a, b)
}

/// a - b.
pub fn difference(problem: &Problem, a: Elem, b: Elem) -> Elem
    requires a { a < order_of problem.now.group }
    requires b { b < order_of problem.now.group }
    ensures difference { result ≡ minus (group_of problem.now.group) a b }
    ensures below { result < order_of problem.now.group }
{
    problem.shape.sub(a, b)
}

/// The member of the family at this place, from 0.
pub fn member_at(problem: &Problem, place: usize) -> Option<Member>
    ensures member { MatchOption result (drop place problem.now.family ≡ []) (λ m. drop place problem.now.family ≡ m ∷ drop (place + 1) problem.now.family) }
    ensures set { IfSome result (λ m. IsSet (point_count problem.now) m.block) }
    ensures points { IfSome result (λ m. All (λ p. p < point_count problem.now) m.block) }
    ensures within { IfSome result (λ _. place < length problem.now.family) }
    ensures rules { IsStated problem.now }
{
    if place < problem.family.len() {
        Some(problem.family[place])
    } else {
        None
    }
}

/// The number of fixed points.
pub fn fixed(problem: &Problem) -> u8
    ensures fixed { result ≡ problem.now.fixed }
    ensures few { result ≤ 16 }
{
    problem.fixed
}

/// The fixed point of this number, from 1.
pub fn fixed_point(problem: &Problem, i: u8) -> Point
    requires some { 0 < i }
    requires few { i ≤ 16 }
    ensures point { result ≡ fixed_point_of problem.now i }
    ensures past { order_of problem.now.group ≤ result }
    ensures some { 0 < result }
{
    Point(order(problem) + (i - 1))
}
