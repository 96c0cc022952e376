// Subgroups, as sets of elements.
//
// A subgroup is stored as the set of its members, so a look takes one step, whatever the generators were. It is generated one
// generator after the other: one that is in already adds nothing, and of another one the cosets by its multiples are put in, up
// to the first multiple that is in already. So each member is put in once: a subgroup of n members takes n sums, beside a look for
// each generator. A generator that isn't in at least doubles the subgroup, so at most seven count.
ghost use Rattle.std.specs.Prelude.{◌≡◌, ◌==◌, ◌<◌, ◌≤◌, ℕ, ◌&&◌, ◌||◌, List, [], ◌∷◌, All, length, nat_eq};
ghost use Rattle.std.specs.List.{range_with_len};
ghost use Rattle.std.specs.Cmp.Lexicographic.{pointwise, lists_per, lists_equiv};
ghost use Rattle.std.specs.Cmp.Rules.{comparing};
ghost use Rattle.std.proofs.Common.{rules};
ghost use Rattle.df_lists.specs.LeastMembers.{any_below};
ghost use Rattle.df_lists.specs.NumberSets.{has_member, with_member};
ghost use Rattle.df_group.specs.Elements.{order_of, group_of, IsShape};
ghost use Rattle.df_group.specs.Subgroups.{generated, canonical_of, same_coset, IsStored, IsSubgroup};

use crate::shape::{Elem, Shape};
use arrayvec::ArrayVec;
use df_sets::NumberSet;
use std::marker::Model;

/// A set of elements of a group with at most 128 elements, seen as the increasing list of their numbers.
#[derive(Clone, Copy, Debug)]
pub struct Subgroup {
    members: NumberSet,
}

impl Model for Subgroup {
    ghost use Rattle.std.specs.Prelude.{List, ℕ, refl};

    ghost Value = { List ℕ };

    ghost view = { λ s. s.members };

    ghost inverse = { λ set. record { members = set } };

    ghost inverse_ok = { λ a h. refl };
}

impl Subgroup {
    /// The subgroup of these generators, which are below the order: all sums of their multiples. Without generators it holds 0 alone.
    /// A generator that is in already costs one look; at most seven others count.
    pub fn generate(shape: &Shape, generators: &[Elem]) -> Subgroup
        requires { All (λ g. g < order_of shape.now) generators.now }
        ensures generated { result ≡ generated shape.now generators.now }
        ensures subgroup { IsSubgroup shape.now result }
    {
        let mut subgroup = Subgroup::trivial(shape);
        for i in (0..generators.len()).rev() {
            let generator = generators[i];
            if subgroup.has(generator) {
                continue;
            }
            subgroup = subgroup.extended(shape, generator);
        }
        subgroup
    }

    /// The subgroup of 0 alone, which has no generators.
    pub fn trivial(shape: &Shape) -> Subgroup
        ensures members { result ≡ 0 ∷ [] }
        ensures generated { result ≡ generated shape.now [] }
        ensures subgroup { IsSubgroup shape.now result }
        ensures shape { IsShape shape.now }
    {
        let mut trivial = Subgroup::empty();
        trivial.put(shape.zero());
        trivial
    }

    /// The subgroup of all elements.
    pub fn whole(shape: &Shape) -> Subgroup
        ensures members { result ≡ range_with_len 0 (order_of shape.now) }
        ensures subgroup { IsSubgroup shape.now result }
    {
        let mut whole = Subgroup::empty();
        for e in 0..shape.order() {
            whole.put(Elem(e));
        }
        whole
    }

    /// Whether an element is a member, for any number.
    pub fn has(&self, e: Elem) -> bool
        ensures { result ≡ has_member self.now e }
    {
        self.members.has(e.0)
    }

    /// The number of members, at most 128.
    pub fn order(&self) -> u8
        ensures order { result ≡ length self.now }
        ensures high { result ≤ 128 }
    {
        self.members.len()
    }

    /// The canonical generators of a subgroup of this shape's group: its members in order, each one that isn't in the subgroup of those taken before.
    pub fn canonical(&self, shape: &Shape) -> ArrayVec<Elem, 7>
        requires { IsSubgroup shape.now self.now }
        ensures canonical { result.items ≡ canonical_of shape.now self.now }
        ensures same { generated shape.now result.items ≡ self.now }
        ensures below { All (λ g. g < order_of shape.now) result.items }
    {
        let mut generators = ArrayVec::new();
        let mut generated = Subgroup::trivial(shape);
        for number in 0..shape.order() {
            let e = Elem(number);
            if !self.has(e) {
                continue;
            }
            if generated.has(e) {
                continue;
            }
            generated = generated.extended(shape, e);
            generators.push(e);
        }
        generators
    }

    /// Whether the difference of two elements below the order is a member, for a subgroup of this shape's group.
    pub fn same_coset(&self, shape: &Shape, a: Elem, b: Elem) -> bool
        requires subgroup { IsSubgroup shape.now self.now }
        requires a { a < order_of shape.now }
        requires b { b < order_of shape.now }
        ensures { result ≡ same_coset shape.now self.now a b }
    {
        self.has(shape.sub(a, b))
    }

    // The subgroup with one more generator: the cosets by its multiples, up to the first multiple that is in already.
    fn extended(&self, shape: &Shape, generator: Elem) -> Subgroup
        requires subgroup { IsSubgroup shape.now self.now }
        requires generator { generator < order_of shape.now }
        ensures { (gs : List ℕ) → self.now ≡ generated shape.now gs → result ≡ generated shape.now (generator ∷ gs) }
    {
        let mut extended = *self;
        for c in 1..shape.exponent() {
            let multiple = shape.times(u32::from(c), generator);
            if self.has(multiple) {
                return extended;
            }
            extended.put_coset(shape, self, multiple);
        }
        extended
    }

    // Puts in each sum of `shift` and a member of the subgroup.
    fn put_coset(&mut self, shape: &Shape, subgroup: &Subgroup, shift: Elem)
        requires shape { IsShape shape.now }
        requires stored { IsStored self.old }
        requires subgroup { IsSubgroup shape.now subgroup.now }
        requires shift { shift < order_of shape.now }
        ensures stored { IsStored self.new }
        ensures members { (x : ℕ) → has_member self.new x
            ≡ (has_member self.old x || any_below (λ s. has_member subgroup.now s && (group_of shape.now).plus shift s == x) (order_of shape.now)) }
    {
        let mut rest = subgroup.members;
        while let Some(s) = rest.pop_first() {
            self.put(shape.add(shift, Elem(s)));
        }
    }

    fn empty() -> Subgroup
        ensures none { result ≡ [] }
        ensures stored { IsStored result }
    {
        Subgroup {
            members: NumberSet::empty(),
        }
    }

    fn put(&mut self, e: Elem)
        requires { e < 128 }
        ensures member { self.new ≡ with_member e self.old }
        ensures stored { IsStored self.new }
    {
        self.members.insert(e.0);
    }
}

impl PartialEq for Subgroup {
    ghost eq = { pointwise nat_eq };

    ghost laws = { Prim.search (comparing, rules, lists_per) };

    fn eq(&self, other: &Self) -> bool {
        self.members == other.members
    }
}

impl Eq for Subgroup {
    ghost laws = { Prim.search (comparing, rules, lists_equiv) };
}
