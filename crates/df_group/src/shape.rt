// The factors of a group, and its elements by their numbers.
//
// An element is its number alone, so that a set of elements is a set of numbers and an image takes one byte; its residues are
// found where they are asked for. The factors are judged once, in `new`, and what was found stays with them as the type's
// invariant, beside the order and the exponent, which the other calls need. No call takes memory.
ghost use Rattle.std.specs.Prelude.{◌≡◌, ◌<◌, ◌≤◌, ◌+◌, ◌*◌, ◌%◌, ℕ, length, All, MatchBool, MatchOption, MatchResult, IfNone, IfSome, Some, None};
ghost use Rattle.std.specs.List.{position};
ghost use Rattle.df_group.specs.Elements.{order_of, group_of, minus, number, residues, IsElement, IsFactor, IsShape};
ghost use Rattle.df_group.specs.Refusals.{refusal, is_outside};
ghost use Rattle.df_group.specs.Subgroups.{exponent_of, is_common_multiple, is_unit};

use crate::copies::copied_items;
use crate::{places, residues};
use arrayvec::ArrayVec;
use std::marker::Model;

/// Why a list of numbers isn't the list of factors of a group, in the order in which the causes are reported.
#[derive(Clone, Copy, Debug, PartialEq, Eq)]
pub enum ShapeError {
    /// The list is empty.
    NoFactor,
    /// The list has more than 7 factors.
    TooManyFactors,
    /// The factor at this place, from 0, is the first that isn't from 2 to 128.
    FactorRange(usize),
    /// The product of the factors is above 128.
    OrderTooLarge,
}

/// An element's number: its place, from 0, among all elements of its group, the first factor first.
#[derive(Clone, Copy, Debug, Default, PartialEq, Eq)]
pub struct Elem(pub u8);

impl Model for Elem {
    ghost use Rattle.std.specs.Prelude.{◌<◌, ℕ, refl};

    ghost Value = { ℕ };

    ghost view = { λ e. e.0 };

    ghost invariant = { λ e. e.0 < 256 };

    ghost inverse = { λ n. record { 0 = n } };

    ghost inverse_ok = { λ a h. refl };
}

/// A product of 1 to 7 cyclic groups of orders 2 to 128, with at most 128 elements, seen as its list of factors
/// (Beth, Jungnickel and Lenz, *Design Theory*).
#[derive(Drop)]
pub struct Shape {
    factors: ArrayVec<u16, 7>,
    order: u8,
    exponent: u8,
}

impl Model for Shape {
    ghost use Rattle.std.specs.Prelude.{◌≡◌, List, ℕ};
    ghost use Rattle.df_group.specs.Elements.{order_of, IsShape};
    ghost use Rattle.df_group.specs.Subgroups.{exponent_of};

    ghost Value = { List ℕ };

    ghost view = { λ s. s.factors.items };

    ghost invariant = { λ s. (s.order ≡ order_of s.factors.items) × (s.exponent ≡ exponent_of s.factors.items) × IsShape s.factors.items };
}

impl Shape {
    /// The product of the cyclic groups of these orders. Refused with the first error, in the order of `ShapeError`.
    pub fn new(factors: &[u16]) -> Result<Shape, ShapeError>
        ensures { MatchResult result (λ shape. (shape ≡ factors.now) × (refusal factors.now ≡ None)) (λ e. refusal factors.now ≡ Some e) }
    {
        if factors.is_empty() {
            return Err(ShapeError::NoFactor);
        }
        if factors.len() > 7 {
            return Err(ShapeError::TooManyFactors);
        }
        if let Some(place) = first_outside(factors) {
            return Err(ShapeError::FactorRange(place));
        }
        let order = order_up_to(factors);
        if order > 128 {
            return Err(ShapeError::OrderTooLarge);
        }
        let order = order as u8;
        Ok(Shape {
            factors: copied_items(factors),
            order,
            exponent: exponent_up_to(factors, order),
        })
    }

    /// The same shape once more, without taking memory.
    pub fn copied(&self) -> Shape
        ensures { result ≡ self.now }
    {
        Shape {
            factors: copied_items(self.factors.as_slice()),
            order: self.order,
            exponent: self.exponent,
        }
    }

    /// The factors, the first one first.
    pub fn factors(&self) -> &[u16]
        ensures factors { result.now ≡ self.now }
        ensures shape { IsShape self.now }
    {
        self.factors.as_slice()
    }

    /// The neutral element: all its residues are 0, and so is its number.
    pub fn zero(&self) -> Elem
        ensures zero { result ≡ 0 }
        ensures below { result < order_of self.now }
        ensures shape { IsShape self.now }
    {
        // Brings in that no factor is 0, so that there is an element.
        let _ = &self.order;
        Elem(0)
    }

    /// The number of elements, from 2 to 128.
    pub fn order(&self) -> u8
        ensures order { result ≡ order_of self.now }
        ensures shape { IsShape self.now }
        ensures low { 2 ≤ result }
        ensures high { result ≤ 128 }
    {
        self.order
    }

    /// The least common multiple of the factors, from 2 to 128: the least number from 1 on that each factor divides.
    pub fn exponent(&self) -> u8
        ensures exponent { result ≡ exponent_of self.now }
        ensures shape { IsShape self.now }
        ensures multiple { All (λ f. result % f ≡ 0) self.now }
        ensures least { (n : ℕ) → 0 < n → All (λ f. n % f ≡ 0) self.now → result ≤ n }
        ensures low { 2 ≤ result }
        ensures high { result ≤ 128 }
    {
        self.exponent
    }

    /// The residues of an element below the order, one below each factor.
    pub fn coords(&self, e: Elem) -> ArrayVec<u16, 7>
        requires { e < order_of self.now }
        ensures residues { result.items ≡ residues self.now e }
        ensures element { IsElement self.now result.items }
    {
        residues::residues_of(self.factors.as_slice(), self.order, e.0)
    }

    /// The element with these residues. `None` exactly where there isn't one residue for each factor, or a residue isn't below its factor.
    pub fn elem(&self, residues: &[u16]) -> Option<Elem>
        ensures element { MatchOption result (IsElement self.now residues.now → ⊥) (λ e. IsElement self.now residues.now × (e ≡ number self.now residues.now)) }
        ensures below { IfSome result (λ e. e < order_of self.now) }
    {
        let factors = self.factors.as_slice();
        if residues::is_element(factors, residues) {
            Some(Elem(residues::number_of(factors, residues)))
        } else {
            None
        }
    }

    /// The sum of two elements below the order, place by place. The answer is below the order.
    pub fn add(&self, a: Elem, b: Elem) -> Elem
        requires a { a < order_of self.now }
        requires b { b < order_of self.now }
        ensures sum { result ≡ (group_of self.now).plus a b }
        ensures below { result < order_of self.now }
    {
        Elem(places::sum(self.factors.as_slice(), a.0, b.0))
    }

    /// The negative of an element below the order, place by place. The answer is below the order.
    pub fn neg(&self, a: Elem) -> Elem
        requires { a < order_of self.now }
        ensures negative { result ≡ (group_of self.now).neg a }
        ensures below { result < order_of self.now }
    {
        Elem(places::difference(self.factors.as_slice(), 0, a.0))
    }

    /// The sum of `a` and the negative of `b`, both below the order. The answer is below the order.
    pub fn sub(&self, a: Elem, b: Elem) -> Elem
        requires a { a < order_of self.now }
        requires b { b < order_of self.now }
        ensures difference { result ≡ minus (group_of self.now) a b }
        ensures below { result < order_of self.now }
    {
        Elem(places::difference(self.factors.as_slice(), a.0, b.0))
    }

    /// `m` times an element below the order: each residue times `m`.
    pub fn times(&self, m: u32, a: Elem) -> Elem
        requires { a < order_of self.now }
        ensures multiple { result ≡ (group_of self.now).times m a }
        ensures below { result < order_of self.now }
    {
        let m = reduced(m, self.exponent);
        Elem(places::multiple(self.factors.as_slice(), m, a.0))
    }

    /// Whether `m` is prime to the exponent: no number from 2 on divides both.
    pub fn is_unit(&self, m: u32) -> bool
        ensures unit { result ≡ is_unit (exponent_of self.now) m }
        ensures prime { MatchBool result ((d : ℕ) → 2 ≤ d → exponent_of self.now % d ≡ 0 → m % d ≡ 0 → ⊥)
            ((d : ℕ) × (2 ≤ d) × (exponent_of self.now % d ≡ 0) × (m % d ≡ 0)) }
    {
        let exponent = u32::from(self.exponent);
        for d in 2..exponent + 1 {
            if exponent % d == 0 && m % d == 0 {
                return false;
            }
        }
        true
    }
}

// The remainder by the exponent, which gives the same multiples.
fn reduced(m: u32, exponent: u8) -> u16
    requires { 0 < exponent }
    ensures value { result ≡ m % exponent }
    ensures below { result < exponent }
{
    let exponent = u32::from(exponent);
    if m < exponent {
        m as u16
    } else {
        (m % exponent) as u16
    }
}

fn first_outside(factors: &[u16]) -> Option<usize>
    ensures place { result ≡ position is_outside factors.now }
    ensures inside { IfNone result (All IsFactor factors.now) }
{
    factors.iter().position(|f| !(2 <= *f && *f <= 128))
}

// The product of the factors, where there are few and each is small.
fn order_up_to(factors: &[u16]) -> u64
    requires few { length factors.now ≤ 7 }
    requires small { All IsFactor factors.now }
    ensures { result ≡ order_of factors.now }
{
    let mut order = 1u64;
    for i in (0..factors.len()).rev() {
        order *= u64::from(factors[i]);
    }
    order
}

// The least common multiple of the factors, which is at most their product.
fn exponent_up_to(factors: &[u16], order: u8) -> u8
    requires shape { IsShape factors.now }
    requires order { order ≡ order_of factors.now }
    ensures { result ≡ exponent_of factors.now }
{
    for n in 1..order {
        if is_common_multiple(factors, n) {
            return n;
        }
    }
    order
}

fn is_common_multiple(factors: &[u16], n: u8) -> bool
    requires { All IsFactor factors.now }
    ensures { result ≡ is_common_multiple factors.now n }
{
    factors.iter().all(|f| u16::from(n) % *f == 0)
}
