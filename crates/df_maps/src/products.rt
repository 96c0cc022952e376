// The residues of products of multipliers.
ghost use Rattle.std.specs.Prelude.{◌≡◌, ◌<◌, ◌≤◌, ◌==◌, ◌*◌, ◌%◌, ◌||◌, ℕ, true, length};
ghost use Rattle.std.specs.List.{list_any};
ghost use Rattle.df_lists.specs.Membership.{In};
ghost use Rattle.df_lists.specs.NumberSets.{has_member, IsSet};
ghost use Rattle.df_maps.specs.Products.{products, products_within};

use arrayvec::ArrayVec;
use df_sets::NumberSet;

/// The residues by `exponent` of the products of all lists of the multipliers, increasing.
pub fn residues_of_products(exponent: u8, mults: &[u16]) -> ArrayVec<u8, 128>
    requires some { 0 < exponent }
    requires small { exponent ≤ 128 }
    ensures { result.items ≡ products exponent mults.now }
{
    let mut rest = reached(exponent, mults);
    let mut residues = ArrayVec::new();
    while let Some(residue) = rest.pop_first() {
        residues.push(residue);
    }
    residues
}

// The set of the residues of all products: 1, and in each of as many passes as there are residues what one more
// multiplier gives.
fn reached(exponent: u8, mults: &[u16]) -> NumberSet
    requires some { 0 < exponent }
    requires small { exponent ≤ 128 }
    ensures { result ≡ products exponent mults.now }
{
    let mut reached = NumberSet::empty();
    reached.insert(1 % exponent);
    for pass in 0..exponent {
        multiply(&mut reached, exponent, mults);
    }
    reached
}

// Adds what one multiplier makes of the residues that are reached.
fn multiply(reached: &mut NumberSet, exponent: u8, mults: &[u16])
    requires some { 0 < exponent }
    requires small { exponent ≤ 128 }
    requires set { IsSet 128 reached.old }
    requires only { (r : ℕ) → has_member reached.old r ≡ true → In (products exponent mults.now) r }
    ensures set { IsSet 128 reached.new }
    ensures stay { (r : ℕ) → has_member reached.old r ≡ true → has_member reached.new r ≡ true }
    ensures more { (m r : ℕ) → In mults.now m → r < exponent → has_member reached.old r ≡ true → has_member reached.new ((m * r) % exponent) ≡ true }
    ensures only { (r : ℕ) → has_member reached.new r ≡ true → In (products exponent mults.now) r }
{
    for r in 0..exponent {
        if !reached.has(r) {
            continue;
        }
        multiply_one(reached, exponent, mults, r);
    }
}

// Adds what each multiplier makes of one residue.
fn multiply_one(reached: &mut NumberSet, exponent: u8, mults: &[u16], residue: u8)
    requires some { 0 < exponent }
    requires small { exponent ≤ 128 }
    requires set { IsSet 128 reached.old }
    ensures set { IsSet 128 reached.new }
    ensures members { (j : ℕ) → has_member reached.new j ≡ (has_member reached.old j || list_any (λ m. (m * residue) % exponent == j) mults.now) }
{
    for m in mults {
        let product = u32::from(*m) * u32::from(residue) % u32::from(exponent);
        reached.insert(product as u8);
    }
}
