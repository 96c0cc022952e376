// Blocks of points.
ghost use Rattle.std.specs.Prelude.{◌≡◌, ◌≤◌, ◌+◌, []};
ghost use Rattle.df_io.specs.Lines.{left};
ghost use Rattle.df_lists.specs.NumberSets.{has_member};
ghost use Rattle.df_group.specs.Elements.{order_of};
ghost use Rattle.df_lang.specs.Values.{points_from};

use crate::elements::point;
use crate::fault::SourceFault;
use df_group::Shape;
use df_io::Tokens;
use df_subsets::Block;

/// The block of the points of the rest of a line, with one of the sizes.
#[tactic(auto, unfolding(crate::specs::Values::points_from))]
pub(crate) fn block(
    shape: &Shape,
    fixed: u8,
    sizes: &[u8],
    tokens: &mut Tokens<'_>,
) -> Result<Block, SourceFault>
    requires { order_of shape.now + fixed ≤ 128 }
    ensures { result ≡ points_from shape.now fixed sizes.now [] (left tokens.old) }
{
    let mut block = Block::empty();
    while let Some(token) = tokens.next_token() {
        let Some(p) = point(shape, fixed, token) else {
            return Err(SourceFault::BadElement);
        };
        if block.has(p) {
            return Err(SourceFault::PointTwice);
        }
        block.insert(p);
    }
    if has_size(sizes, block.size()) {
        Ok(block)
    } else {
        Err(SourceFault::BlockSize)
    }
}

fn has_size(sizes: &[u8], size: u8) -> bool
    ensures { result ≡ has_member sizes.now size }
{
    sizes.iter().any(|k| *k == size)
}
