// Reads a whole source.
ghost use Rattle.std.specs.Prelude.{◌≡◌};
ghost use Rattle.df_lang.specs.Drafts.{above, Parses};
ghost use Rattle.df_lang.specs.DraftRules.{StandsKept};
ghost use Rattle.df_lang.specs.Sources.{whole};

use crate::draft::Draft;
use crate::fault::{Needed, ParseError, SourceError, SourceFault};
use crate::pieces::Which;
use crate::problem::Problem;
use crate::reader::read_lines;
use arrayvec::ArrayVec;
use std::alloc::Global;

/// The problem that a source states, or the first line that breaks a rule: its number, from 1, and the first rule that it breaks.
/// What the whole source has to state and doesn't is reported at line 0. A source of up to 4,294,967,296 bytes runs out of nothing but memory.
pub fn parse(alloc: Global, source: &[u8]) -> Result<Problem, ParseError>
    ensures { Parses source.now result }
{
    let draft = read_lines(alloc, source)?;
    match finish(draft) {
        Ok(problem) => Ok(problem),
        Err(fault) => Err(ParseError::Refused(SourceError { line: 0, fault })),
    }
}

// The end of a source: what is needed, and what holds where nothing is stated.
#[tactic(auto, unfolding(crate::specs::Sources::whole))]
fn finish(draft: Draft) -> Result<Problem, SourceFault>
    requires { StandsKept (above draft) }
    ensures { result ≡ whole (above draft) }
{
    let Draft {
        version,
        group,
        fixed,
        names,
        shift,
        mults,
        sizes,
        lambda,
        inside,
        hole,
        family,
        required,
        forbidden,
    } = draft;
    let Some(shape) = group else {
        return Err(SourceFault::Missing(Needed::Group));
    };
    let Some(sizes) = sizes else {
        return Err(SourceFault::Missing(Needed::Size));
    };
    let Some(lambda) = lambda else {
        return Err(SourceFault::Missing(Needed::Lambda));
    };
    Ok(Problem {
        version: version.unwrap_or(1),
        shape,
        fixed: fixed.unwrap_or(0),
        names,
        shift: shift.unwrap_or(Which::All),
        mults: mults.unwrap_or(ArrayVec::new()),
        sizes,
        lambda,
        inside,
        hole: hole.unwrap_or(lambda),
        family,
        required,
        forbidden,
    })
}
