// The elements that generate a subgroup.
ghost use Rattle.std.specs.Prelude.{◌≡◌, ◌<◌, [], IfOk, All};
ghost use Rattle.df_io.specs.Lines.{left};
ghost use Rattle.df_group.specs.Elements.{order_of};
ghost use Rattle.df_lang.specs.Drafts.{GivesItems};
ghost use Rattle.df_lang.specs.Values.{elements_from};

use crate::elements::element;
use crate::fault::{SourceFault, Stop};
use df_group::{Elem, Shape};
use df_io::Tokens;
use std::alloc::Global;

/// The elements of the rest of a line.
#[tactic(auto, unfolding(crate::specs::Values::elements_from))]
pub(crate) fn elements(
    alloc: Global,
    shape: &Shape,
    tokens: &mut Tokens<'_>,
) -> Result<Vec<Elem>, Stop>
    ensures value { GivesItems (elements_from shape.now [] (left tokens.old)) result }
    ensures below { IfOk result (λ es. All (λ e. e < order_of shape.now) es.items) }
{
    let mut elements = Vec::new(alloc);
    while let Some(token) = tokens.next_token() {
        let Some(e) = element(shape, token) else {
            return Err(Stop::Fault(SourceFault::BadElement));
        };
        elements.push(e)?;
    }
    Ok(elements)
}
