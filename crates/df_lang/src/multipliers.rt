// Multipliers, reduced, each once.
ghost use Rattle.std.specs.Prelude.{◌≡◌, ◌≤◌, [], Ok, Err, MatchResult};
ghost use Rattle.df_io.specs.Lines.{left};
ghost use Rattle.df_lists.specs.NumberSets.{has_member};
ghost use Rattle.df_group.specs.Subgroups.{exponent_of};
ghost use Rattle.df_lang.specs.Values.{mults_from};

use crate::fault::SourceFault;
use crate::tokens::number;
use arrayvec::ArrayVec;
use df_group::Shape;
use df_io::Tokens;

/// The multipliers of the rest of a line.
#[tactic(auto, unfolding(crate::specs::Values::mults_from))]
pub(crate) fn multipliers(
    shape: &Shape,
    tokens: &mut Tokens<'_>,
) -> Result<ArrayVec<u16, 128>, SourceFault>
    ensures { MatchResult result (λ ms. mults_from (exponent_of shape.now) [] (left tokens.old) ≡ Ok ms.items)
        (λ fault. mults_from (exponent_of shape.now) [] (left tokens.old) ≡ Err fault) }
{
    let exponent = u64::from(shape.exponent());
    let mut kept = ArrayVec::new();
    while let Some(token) = tokens.next_token() {
        let m = number(token)? % exponent;
        if !shape.is_unit(m as u32) {
            return Err(SourceFault::NotUnit);
        }
        if !has(kept.as_slice(), m as u16) {
            kept.push(m as u16);
        }
    }
    if kept.is_empty() {
        return Err(SourceFault::BadWord);
    }
    Ok(kept)
}

fn has(numbers: &[u16], n: u16) -> bool
    ensures { result ≡ has_member numbers.now n }
{
    numbers.iter().any(|m| *m == n)
}
