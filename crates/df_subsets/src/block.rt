// Points and blocks.
//
// A block is the set of its points' numbers, 16 bytes that are copied as a number: the orbits and the matrix keep millions of
// them. Its points are taken out of the set one by one, the least first. No call takes memory.
ghost use Rattle.std.specs.Prelude.{◌≡◌, ◌==◌, ◌||◌, ◌+◌, ◌<◌, ℕ, [], length, nat_eq, if◌then◌else◌, IfSome};
ghost use Rattle.std.specs.Ordering.{nat_cmp, as_partial_cmp};
ghost use Rattle.std.specs.Cmp.Lexicographic.{pointwise, slice_cmp, lists_per, lists_equiv, lists_total};
ghost use Rattle.std.specs.Cmp.{partial_order_from_own_ties};
ghost use Rattle.std.specs.Cmp.Rules.{comparing};
ghost use Rattle.std.specs.Hash as fed;
ghost use Rattle.std.specs.Hash.{items_Alike, same_Alike};
ghost use Rattle.std.proofs.Common.{rules};
ghost use Rattle.df_lists.specs.Membership.{In};
ghost use Rattle.df_lists.specs.Bits.{members, weight};
ghost use Rattle.df_lists.specs.NumberSets.{has_member, set_of, with_member, IsSet};
ghost use Rattle.df_subsets.specs.Blocks.{are_apart};

use arrayvec::ArrayVec;
use df_sets::NumberSet;
use std::cmp::Ordering;
use std::fmt;
use std::hash::{Hash, Hasher};
use std::marker::Model;

/// A point's number: the elements of the group first, in their order, and then the fixed points by theirs.
#[derive(Clone, Copy, Debug, Default, PartialEq, Eq, PartialOrd, Ord, Hash)]
pub struct Point(pub u8);

impl Model for Point {
    ghost use Rattle.std.specs.Prelude.{◌<◌, ℕ, refl};

    ghost Value = { ℕ };

    ghost view = { λ p. p.0 };

    ghost invariant = { λ p. p.0 < 256 };

    ghost inverse = { λ n. record { 0 = n } };

    ghost inverse_ok = { λ a h. refl };
}

/// A set of points below 128, seen as the increasing list of its points.
///
/// Blocks are equal, compared and hashed as these lists: a proper prefix comes before the longer list.
#[derive(Clone, Copy)]
pub struct Block {
    points: NumberSet,
}

impl Model for Block {
    ghost use Rattle.std.specs.Prelude.{List, ℕ, refl};

    ghost Value = { List ℕ };

    ghost use Rattle.df_lists.specs.NumberSets.{IsSet};

    ghost view = { λ b. b.points };

    ghost invariant = { λ b. IsSet 128 b.points };

    ghost inverse = { λ points. record { points = points } };

    ghost inverse_ok = { λ a h. refl };
}

impl Block {
    /// The block without points.
    pub fn empty() -> Block
        ensures { result ≡ [] }
    {
        Block {
            points: NumberSet::empty(),
        }
    }

    // The block that these bits keep.
    pub(crate) fn from_bits(bits: u128) -> Block
        ensures { result ≡ members bits }
    {
        Block {
            points: NumberSet::from_bits(bits),
        }
    }

    // The bits that keep the block.
    pub(crate) fn bits(&self) -> u128
        ensures { result ≡ weight self.now }
    {
        self.points.bits()
    }

    /// The block of these points, in whatever order they come.
    /// `None` exactly where a point is repeated or isn't below 128.
    pub fn from_points(points: &[Point]) -> Option<Block>
        ensures value { result ≡ (if are_apart 128 points.now then Some (set_of 128 points.now) else None) }
        ensures size { IfSome result (λ block. length block ≡ length points.now) }
        ensures within { (v : ℕ) → ((p : ℕ) → In points.now p → p < v) → IfSome result (λ block. IsSet v block) }
    {
        let mut block = Block::empty();
        for p in points {
            if p.0 >= 128 || block.has(*p) {
                return None;
            }
            block.insert(*p);
        }
        Some(block)
    }

    /// Puts a point below 128 into the block, which stays as it is where it has the point.
    pub fn insert(&mut self, p: Point)
        requires { p < 128 }
        ensures list { self.new ≡ with_member p self.old }
        ensures points { (q : ℕ) → has_member self.new q ≡ (p == q || has_member self.old q) }
        ensures size { length self.new ≡ (if has_member self.old p then length self.old else length self.old + 1) }
        ensures within { (v : ℕ) → p < v → IsSet v self.old → IsSet v self.new }
    {
        self.points.insert(p.0);
    }

    /// Whether this is a point of the block; false from 128 on.
    pub fn has(&self, p: Point) -> bool
        ensures { result ≡ has_member self.now p }
    {
        self.points.has(p.0)
    }

    /// How many points the block has, at most 128.
    pub fn size(&self) -> u8
        ensures { result ≡ length self.now }
    {
        self.points.len()
    }

    /// The points, increasing.
    pub fn points(&self) -> ArrayVec<Point, 128>
        ensures list { result.items ≡ self.now }
        ensures block { IsSet 128 self.now }
    {
        let mut points = ArrayVec::new();
        let mut rest = self.points;
        while let Some(p) = rest.pop_first() {
            points.push(Point(p));
        }
        points
    }
}

impl Default for Block {
    ghost is_default = { λ block. block ≡ [] };

    fn default() -> Block {
        Block::empty()
    }
}

impl fmt::Debug for Block {
    fn fmt<W: fmt::Write>(&self, f: &mut fmt::Formatter<W>) -> fmt::Result {
        f.debug_set().slice(self.points().as_slice()).finish()
    }
}

impl PartialEq for Block {
    ghost eq = { pointwise nat_eq };

    ghost laws = { Prim.search (comparing, rules, lists_per) };

    fn eq(&self, other: &Self) -> bool {
        self.points == other.points
    }
}

impl Eq for Block {
    ghost laws = { Prim.search (comparing, rules, lists_equiv) };
}

impl Ord for Block {
    ghost cmp = { slice_cmp nat_cmp };

    ghost total = { Prim.search (comparing, rules, lists_total) };

    ghost matches_partial_cmp = { Prim.search (comparing, rules) };

    ghost matches_eq = { Prim.search (comparing, rules) };

    fn cmp(&self, other: &Self) -> Ordering {
        self.points.cmp(&other.points)
    }
}

impl PartialOrd for Block {
    ghost partial_cmp = { as_partial_cmp (slice_cmp nat_cmp) };

    ghost laws = { partial_order_from_own_ties (Prim.search (comparing, rules, lists_total)) (Prim.search (comparing, rules)) };

    fn partial_cmp(&self, other: &Self) -> Option<Ordering> {
        Some(self.cmp(other))
    }
}

impl Hash for Block {
    ghost hash_input = { λ v. fed.slice ⟦<Point as Hash>⟧.hash_input v };

    ghost respects_eq = { Prim.search (rules, items_Alike, same_Alike) };

    fn hash<H: Hasher>(&self, state: &mut H) {
        self.points().as_slice().hash(state);
    }
}
