// The pairs of an orbit. The shifts are a group, so the pairs that they carry to a pair are all pairs of its orbit. These are found
// once for each pair, and tell both whether it is the representative and, by looks at the bits of a block, how often the block
// has it.
ghost use Rattle.std.specs.Prelude.{◌≡◌, ◌<◌, ◌≤◌, map, not, length, count_by};
ghost use Rattle.std.specs.List.{list_all};
ghost use Rattle.df_group.specs.Elements.{order_of, group_of, shifted};
ghost use Rattle.df_group.specs.Subgroups.{IsSubgroup};
ghost use Rattle.df_lang.specs.Problems.{IsStated, point_count};
ghost use Rattle.df_lang.specs.Balance.{holds_both};
ghost use Rattle.df_mixed.specs.PairOrbits.{shifts_of, in_order, is_earlier};
ghost use Rattle.df_mixed.specs.Origins.{origin_of, origins_of};

use arrayvec::ArrayVec;
use df_group::{Elem, Subgroup};
use df_lang::Problem;
use df_subsets::{Block, Point};

/// The subgroup that the problem states as its shifts.
pub fn stated_shifts(problem: &Problem) -> Subgroup
    ensures members { result ≡ shifts_of problem.now }
    ensures subgroup { IsSubgroup problem.now.group result }
{
    problem.subgroup(problem.shift)
}

/// For each shift, in order, the points that it carries to p and to q.
pub fn origins(
    problem: &Problem,
    shifts: &Subgroup,
    p: Point,
    q: Point,
) -> ArrayVec<(Point, Point), 128>
    requires subgroup { IsSubgroup problem.now.group shifts.now }
    requires p { p < point_count problem.now }
    requires q { q < point_count problem.now }
    ensures origins { result.items ≡ origins_of problem.now shifts.now p q }
    ensures few { length result.items ≤ 128 }
    ensures rules { IsStated problem.now }
{
    let mut origins = ArrayVec::new();
    for number in 0..order(problem) {
        let g = Elem(number);
        if !shifts.has(g) {
            continue;
        }
        origins.push((origin(problem, g, p), origin(problem, g, q)));
    }
    origins
}

// The number of elements of the group.
fn order(problem: &Problem) -> u8
    ensures order { result ≡ order_of problem.now.group }
    ensures most { result ≤ 128 }
    ensures rules { IsStated problem.now }
{
    problem.shape.order()
}

// The point that g carries to p.
fn origin(problem: &Problem, g: Elem, p: Point) -> Point
    requires g { g < order_of problem.now.group }
    requires p { p < point_count problem.now }
    ensures { result ≡ origin_of problem.now p g }
{
    if p.0 < order(problem) {
        Point(problem.shape.sub(Elem(p.0), g).0)
    } else {
        p
    }
}

/// Whether none of these pairs, each in any order, is earlier than p and q.
pub fn is_representative_pair(p: Point, q: Point, origins: &[(Point, Point)]) -> bool
    ensures { result ≡ list_all (λ o. not (is_earlier (in_order o.0 o.1) (p, q))) origins.now }
{
    origins.iter().all(|o| !is_before(*o, p, q))
}

// Whether this pair, in any order, is earlier than p and q.
fn is_before(pair: (Point, Point), p: Point, q: Point) -> bool
    ensures { result ≡ is_earlier (in_order pair.0 pair.1) (p, q) }
{
    let (low, high) = if pair.0 < pair.1 {
        pair
    } else {
        (pair.1, pair.0)
    };
    low < p || (low == p && high < q)
}

/// How many of these pairs the block holds.
pub fn count_held(block: &Block, origins: &[(Point, Point)]) -> u64
    requires { length origins.now ≤ 128 }
    ensures count { result ≡ count_by (λ o. holds_both block.now o.0 o.1) origins.now }
    ensures few { result ≤ 128 }
{
    let mut count = 0;
    for o in origins {
        if block.has(o.0) && block.has(o.1) {
            count += 1;
        }
    }
    count
}
