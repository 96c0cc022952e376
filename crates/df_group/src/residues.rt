// Lists of residues, one for each factor, and the numbers of elements.
ghost use Rattle.std.specs.Prelude.{◌≡◌, ◌<◌, ◌≤◌, ◌^◌, ℕ, length, MatchBool};
ghost use Rattle.df_group.specs.Elements.{order_of, IsElement, IsShape, number, residues};

use arrayvec::ArrayVec;

/// Whether there is one residue below each factor.
pub fn is_element(factors: &[u16], residues: &[u16]) -> bool
    ensures { MatchBool result (IsElement factors.now residues.now) (IsElement factors.now residues.now → ⊥) }
{
    if residues.len() != factors.len() {
        return false;
    }
    for i in 0..factors.len() {
        if factors[i] <= residues[i] {
            return false;
        }
    }
    true
}

/// The residues of the element with this number, where `order` is the product of the factors.
pub fn residues_of(factors: &[u16], order: u8, number: u8) -> ArrayVec<u16, 7>
    requires shape { IsShape factors.now }
    requires order { order ≡ order_of factors.now }
    requires number { number < order }
    ensures residues { result.items ≡ residues factors.now number }
    ensures element { IsElement factors.now result.items }
{
    let mut residues = ArrayVec::new();
    let mut rest = u16::from(number);
    let mut below = u16::from(order);
    for i in 0..factors.len() {
        below /= factors[i];
        residues.push(rest / below);
        rest %= below;
    }
    residues
}

/// The number of the element with these residues.
pub fn number_of(factors: &[u16], residues: &[u16]) -> u8
    requires shape { IsShape factors.now }
    requires element { IsElement factors.now residues.now }
    ensures number { result ≡ number factors.now residues.now }
    ensures below { result < order_of factors.now }
{
    let mut place = 0u16;
    for i in 0..factors.len() {
        place = place * factors[i] + residues[i];
    }
    place as u8
}
