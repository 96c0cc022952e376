// A set of numbers below 128.
//
// The bit of place n is set where n is a member, so a look, one member more and the number of members are one step each, and
// the least member is the number of zeros below the lowest bit. Two sets are compared as lists at the lowest bit in which they
// differ. A set takes 16 bytes and no memory beside them, and is copied as a number.
ghost use Rattle.std.specs.Prelude.{◌≡◌, ◌<◌, ◌≤◌, ℕ, [], ◌∷◌, length, nat_eq, MatchOption};
ghost use Rattle.std.specs.Ordering.{nat_cmp, as_partial_cmp};
ghost use Rattle.std.specs.Cmp.Lexicographic.{pointwise, slice_cmp, lists_per, lists_equiv, lists_total};
ghost use Rattle.std.specs.Cmp.{partial_order_from_own_ties};
ghost use Rattle.std.specs.Cmp.Rules.{comparing};
ghost use Rattle.std.proofs.Common.{rules};
ghost use Rattle.df_lists.specs.NumberSets.{has_member, with_member, IsSet};
ghost use Rattle.df_lists.specs.Bits.{members, weight};

use std::cmp::Ordering;
use std::marker::Model;

/// A set of numbers below 128, seen as the increasing list of its members.
///
/// Sets are equal and compared as these lists: a proper prefix comes before the longer list.
#[derive(Clone, Copy, Debug)]
pub struct NumberSet {
    bits: u128,
}

impl Model for NumberSet {
    ghost use Rattle.std.specs.Prelude.{◌<◌, ◌^◌, List, ℕ, refl};
    ghost use Rattle.std.proofs.Common.{ap};
    ghost use Rattle.df_lists.specs.Bits.{members, weight};
    ghost use Rattle.df_lists.proofs.BitLaws.{weight_members};

    ghost Value = { List ℕ };

    ghost view = { λ s. members s.bits };

    ghost invariant = { λ s. s.bits < 2 ^ 128 };

    ghost inverse = { λ set. record { bits = weight set } };

    ghost inverse_ok = { λ a h. ap (λ n. record { bits = n }) (weight_members a.bits h) };
}

impl NumberSet {
    /// The set without members.
    pub fn empty() -> NumberSet
        ensures list { result ≡ [] }
        ensures set { IsSet 128 result }
    {
        NumberSet { bits: 0 }
    }

    /// The set of the places of the bits that are set.
    pub fn from_bits(bits: u128) -> NumberSet
        ensures list { result ≡ members bits }
        ensures set { IsSet 128 result }
    {
        NumberSet { bits }
    }

    /// The number whose bits are set at the places of the members.
    pub fn bits(&self) -> u128
        ensures { result ≡ weight self.now }
    {
        self.bits
    }

    /// Puts a number below 128 into the set, which stays as it is where it has the number.
    pub fn insert(&mut self, n: u8)
        requires { n < 128 }
        ensures list { self.new ≡ with_member n self.old }
        ensures set { IsSet 128 self.new }
        ensures before { IsSet 128 self.old }
    {
        self.bits |= 1 << n;
    }

    /// Whether a number is a member; false from 128 on.
    pub fn has(&self, n: u8) -> bool
        ensures { result ≡ has_member self.now n }
    {
        n < 128 && (self.bits >> n) & 1 == 1
    }

    /// How many members the set has, at most 128.
    pub fn len(&self) -> u8
        ensures length { result ≡ length self.now }
        ensures high { result ≤ 128 }
        ensures set { IsSet 128 self.now }
    {
        self.bits.count_ones() as u8
    }

    /// Takes the least member out of the set and gives it, or `None` where there is none.
    pub fn pop_first(&mut self) -> Option<u8>
        ensures first { MatchOption result ((self.old ≡ []) × (self.new ≡ [])) (λ n. (self.old ≡ n ∷ self.new) × (n < 128)) }
        ensures set { IsSet 128 self.old }
    {
        if self.bits == 0 {
            return None;
        }
        let first = self.bits.trailing_zeros() as u8;
        self.bits -= 1 << first;
        Some(first)
    }
}

impl Default for NumberSet {
    ghost is_default = { λ set. set ≡ [] };

    fn default() -> NumberSet {
        NumberSet::empty()
    }
}

impl PartialEq for NumberSet {
    ghost eq = { pointwise nat_eq };

    ghost laws = { Prim.search (comparing, rules, lists_per) };

    fn eq(&self, other: &Self) -> bool {
        self.bits == other.bits
    }
}

impl Eq for NumberSet {
    ghost laws = { Prim.search (comparing, rules, lists_equiv) };
}

impl Ord for NumberSet {
    ghost cmp = { slice_cmp nat_cmp };

    ghost total = { Prim.search (comparing, rules, lists_total) };

    ghost matches_partial_cmp = { Prim.search (comparing, rules) };

    ghost matches_eq = { Prim.search (comparing, rules) };

    fn cmp(&self, other: &Self) -> Ordering {
        let apart = self.bits ^ other.bits;
        if apart == 0 {
            return Ordering::Equal;
        }
        // at the first number that only one of the two has, the other one has a later number, or ends
        let first = apart.trailing_zeros();
        if (self.bits >> first) & 1 == 1 {
            if other.bits >> first == 0 {
                Ordering::Greater
            } else {
                Ordering::Less
            }
        } else if self.bits >> first == 0 {
            Ordering::Less
        } else {
            Ordering::Greater
        }
    }
}

impl PartialOrd for NumberSet {
    ghost partial_cmp = { as_partial_cmp (slice_cmp nat_cmp) };

    ghost laws = { partial_order_from_own_ties (Prim.search (comparing, rules, lists_total)) (Prim.search (comparing, rules)) };

    fn partial_cmp(&self, other: &Self) -> Option<Ordering> {
        Some(self.cmp(other))
    }
}
