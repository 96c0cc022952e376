// Arithmetic on the numbers of elements, without their lists of residues.
//
// A number is taken apart from its last place on: the remainder by the last factor is the last residue, and the quotient is
// the number of the places before it. The first place takes what is left, so a group with one factor needs a comparison and
// a subtraction alone, and a sum over n factors 2 (n - 1) divisions, with at most 7 factors. No memory is taken.
ghost use Rattle.std.specs.Prelude.{◌≡◌, ◌<◌, ◌≤◌, ◌+◌, ◌*◌, ◌%◌};
ghost use Rattle.df_group.specs.Elements.{order_of, group_of, minus, IsShape};

/// The number of the sum of two elements, given by their numbers.
pub fn sum(factors: &[u16], a: u8, b: u8) -> u8
    requires shape { IsShape factors.now }
    requires a { a < order_of factors.now }
    requires b { b < order_of factors.now }
    ensures sum { result ≡ (group_of factors.now).plus a b }
    ensures below { result < order_of factors.now }
{
    let mut sum = 0u16;
    let mut weight = 1u16;
    let mut rest_a = u16::from(a);
    let mut rest_b = u16::from(b);
    for i in (1..factors.len()).rev() {
        let factor = factors[i];
        sum += wrapped(rest_a % factor + rest_b % factor, factor) * weight;
        weight *= factor;
        rest_a /= factor;
        rest_b /= factor;
    }
    (sum + wrapped(rest_a + rest_b, factors[0]) * weight) as u8
}

/// The number of the sum of an element and the negative of another one, given by their numbers.
pub fn difference(factors: &[u16], a: u8, b: u8) -> u8
    requires shape { IsShape factors.now }
    requires a { a < order_of factors.now }
    requires b { b < order_of factors.now }
    ensures difference { result ≡ minus (group_of factors.now) a b }
    ensures below { result < order_of factors.now }
{
    let mut difference = 0u16;
    let mut weight = 1u16;
    let mut rest_a = u16::from(a);
    let mut rest_b = u16::from(b);
    for i in (1..factors.len()).rev() {
        let factor = factors[i];
        difference += wrapped(rest_a % factor + (factor - rest_b % factor), factor) * weight;
        weight *= factor;
        rest_a /= factor;
        rest_b /= factor;
    }
    let factor = factors[0];
    (difference + wrapped(rest_a + (factor - rest_b), factor) * weight) as u8
}

/// The number of `m` times an element, given by its number.
pub fn multiple(factors: &[u16], m: u16, a: u8) -> u8
    requires shape { IsShape factors.now }
    requires m { m ≤ 128 }
    requires a { a < order_of factors.now }
    ensures multiple { result ≡ (group_of factors.now).times m a }
    ensures below { result < order_of factors.now }
{
    let mut multiple = 0u16;
    let mut weight = 1u16;
    let mut rest = u16::from(a);
    for i in (1..factors.len()).rev() {
        let factor = factors[i];
        multiple += m * (rest % factor) % factor * weight;
        weight *= factor;
        rest /= factor;
    }
    (multiple + m * rest % factors[0] * weight) as u8
}

// The remainder by the factor of a number below twice the factor.
fn wrapped(total: u16, factor: u16) -> u16
    requires { total < 2 * factor }
    ensures { result ≡ total % factor }
{
    if total < factor {
        total
    } else {
        total - factor
    }
}
