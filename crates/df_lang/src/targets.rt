// The target of two points.
ghost use Rattle.std.specs.Prelude.{◌≡◌, ◌≢◌, ◌<◌};
ghost use Rattle.df_group.specs.Elements.{order_of};
ghost use Rattle.df_lang.specs.Problems.{point_count};
ghost use Rattle.df_lang.specs.Targets.{target as meant, finite_target as meant_finite};

use crate::problem::Problem;
use df_group::Elem;
use df_subsets::Point;

/// In how many blocks two different points below the number of points are to lie together: the number of `hole` where both are fixed,
/// that of `inside` where both are elements of one coset of its subgroup, and that of `lambda` otherwise.
/// (*Handbook of Combinatorial Designs*: relative and divisible difference families.)
pub fn target(problem: &Problem, p: Point, q: Point) -> u32
    requires apart { p ≢ q }
    requires p { p < point_count problem.now }
    requires q { q < point_count problem.now }
    ensures { result ≡ meant problem.now p q }
{
    let order = problem.shape.order();
    if p.0 < order && q.0 < order {
        finite_target(problem, Elem(p.0), Elem(q.0))
    } else if p.0 >= order && q.0 >= order {
        problem.hole
    } else {
        problem.lambda
    }
}

fn finite_target(problem: &Problem, p: Elem, q: Elem) -> u32
    requires p { p < order_of problem.now.group }
    requires q { q < order_of problem.now.group }
    ensures { result ≡ meant_finite problem.now problem.now.inside p q }
{
    match problem.inside {
        Some(inside) => {
            let subgroup = problem.subgroup(inside.subgroup);
            if subgroup.same_coset(&problem.shape, q, p) {
                inside.target
            } else {
                problem.lambda
            }
        }
        None => problem.lambda,
    }
}
