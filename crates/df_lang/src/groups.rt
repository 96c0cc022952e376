// The factors of a group.
ghost use Rattle.std.specs.Prelude.{◌≡◌, [], Ok, Err, MatchResult, IfOk};
ghost use Rattle.df_io.specs.Lines.{left};
ghost use Rattle.df_group.specs.Elements.{IsShape};
ghost use Rattle.df_lang.specs.Values.{factors_from};

use crate::fault::SourceFault;
use crate::tokens::number;
use arrayvec::ArrayVec;
use df_group::Shape;
use df_io::Tokens;

/// The group of the factors of the rest of a line.
pub(crate) fn group(tokens: &mut Tokens<'_>) -> Result<Shape, SourceFault>
    ensures { MatchResult result (λ shape. factors_from [] (left tokens.old) ≡ Ok shape) (λ fault. factors_from [] (left tokens.old) ≡ Err fault) }
{
    let factors = factors(tokens)?;
    Ok(shape(&factors))
}

#[tactic(auto, unfolding(crate::specs::Values::factors_from))]
fn factors(tokens: &mut Tokens<'_>) -> Result<ArrayVec<u16, 7>, SourceFault>
    ensures value { MatchResult result (λ fs. factors_from [] (left tokens.old) ≡ Ok fs.items) (λ fault. factors_from [] (left tokens.old) ≡ Err fault) }
    ensures shape { IfOk result (λ fs. IsShape fs.items) }
{
    let mut factors = ArrayVec::new();
    let mut order = 1u64;
    while let Some(token) = tokens.next_token() {
        let f = number(token)?;
        if f < 2 || f > 128 || factors.len() == 7 || order * f > 128 {
            return Err(SourceFault::GroupRange);
        }
        factors.push(f as u16);
        order *= f;
    }
    if factors.is_empty() {
        return Err(SourceFault::BadWord);
    }
    Ok(factors)
}

// A shape of factors that are one.
fn shape(factors: &[u16]) -> Shape
    requires { IsShape factors.now }
    ensures { result ≡ factors.now }
{
    match Shape::new(factors) {
        Ok(shape) => shape,
        Err(_) => unreachable!(),
    }
}
