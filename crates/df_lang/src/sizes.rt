// The sizes of the blocks.
ghost use Rattle.std.specs.Prelude.{◌≡◌, ◌≤◌, IfOk};
ghost use Rattle.df_io.specs.Lines.{left};
ghost use Rattle.df_lists.specs.NumberSets.{Rises};
ghost use Rattle.df_lang.specs.Values.{sizes_from, sizes_read};

use crate::fault::SourceFault;
use crate::tokens::{end, needed, number_in};
use arrayvec::ArrayVec;
use df_io::Tokens;
use df_sets::NumberSet;

/// The set of the sizes of the rest of a line, each from 2 to `most`: one in version 1, at least one in version 2.
#[tactic(auto, unfolding(crate::specs::Values::sizes_read))]
pub(crate) fn sizes(
    version: u8,
    most: u64,
    tokens: &mut Tokens<'_>,
) -> Result<NumberSet, SourceFault>
    requires { most ≤ 16 }
    ensures value { result ≡ sizes_read version most (left tokens.old) }
    ensures range { IfOk result (λ set. Rises 2 17 set) }
{
    let token = needed(tokens)?;
    let k = number_in(2, most, SourceFault::SizeRange, token)?;
    let mut set = NumberSet::empty();
    set.insert(k as u8);
    if version == 1 {
        end(tokens)?;
        Ok(set)
    } else {
        more_sizes(most, set, tokens)
    }
}

#[tactic(auto, unfolding(crate::specs::Values::sizes_from))]
fn more_sizes(
    most: u64,
    sizes: NumberSet,
    tokens: &mut Tokens<'_>,
) -> Result<NumberSet, SourceFault>
    requires most { most ≤ 16 }
    requires range { Rises 2 17 sizes }
    ensures value { result ≡ sizes_from most sizes (left tokens.old) }
    ensures range { IfOk result (λ set. Rises 2 17 set) }
{
    let mut set = sizes;
    while let Some(token) = tokens.next_token() {
        let k = number_in(2, most, SourceFault::SizeRange, token)?;
        set.insert(k as u8);
    }
    Ok(set)
}

/// The sizes of a set, increasing.
pub(crate) fn size_list(set: &NumberSet) -> ArrayVec<u8, 15>
    requires { Rises 2 17 set.now }
    ensures { result.items ≡ set.now }
{
    let mut sizes = ArrayVec::new();
    let mut rest = *set;
    while let Some(size) = rest.pop_first() {
        sizes.push(size);
    }
    sizes
}
