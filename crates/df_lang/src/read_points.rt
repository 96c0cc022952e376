// Points, read from their texts.
ghost use Rattle.std.specs.Prelude.{◌≡◌, ◌<◌, IfSome};
ghost use Rattle.df_lang.specs.Problems.{point_count};
ghost use Rattle.df_lang.specs.Values.{point_of};

use crate::elements::point;
use crate::problem::Problem;
use df_subsets::Point;

/// The point that a token names, below the number of points: an element of the group, or `inf` and the number of a fixed point, from 1.
/// `None` exactly where the token names no point.
pub fn read_point(problem: &Problem, token: &[u8]) -> Option<Point>
    ensures point { result ≡ point_of problem.now.group problem.now.fixed token.now }
    ensures below { IfSome result (λ p. p < point_count problem.now) }
{
    point(&problem.shape, problem.fixed, token)
}
