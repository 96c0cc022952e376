// Takes the lines of blocks.
ghost use Rattle.std.specs.Prelude.{◌≡◌, ◌+◌, length};
ghost use Rattle.df_io.specs.Lines.{left};
ghost use Rattle.df_lang.specs.Drafts.{above, Goes, GoesOn};
ghost use Rattle.df_lang.specs.Statements.{block_of, member_line, require_line, forbid_line};

use crate::blocks::block;
use crate::draft::Draft;
use crate::fault::{Needed, SourceFault, Stop};
use crate::pieces::{Kind, Member};
use crate::problem::MOST_BLOCKS;
use df_io::Tokens;
use df_subsets::Block;

impl Draft {
    // A block, where a number of its kind stand above.
    #[tactic(auto, unfolding(crate::specs::Statements::block_of))]
    fn block(&self, count: usize, tokens: &mut Tokens<'_>) -> Result<Block, SourceFault>
        ensures { result ≡ block_of (above self.now) count (left tokens.old) }
    {
        let Some(shape) = &self.group else {
            return Err(SourceFault::Missing(Needed::Group));
        };
        let Some(sizes) = &self.sizes else {
            return Err(SourceFault::Missing(Needed::Size));
        };
        if count >= MOST_BLOCKS {
            return Err(SourceFault::TooManyBlocks);
        }
        block(shape, self.fixed.unwrap_or(0), sizes.as_slice(), tokens)
    }

    /// The line of `base` or `short`.
    #[tactic(auto, unfolding(crate::specs::Statements::member_line))]
    pub(crate) fn member(&mut self, kind: Kind, tokens: &mut Tokens<'_>) -> Result<(), Stop>
        ensures { GoesOn (member_line (above self.old) kind (left tokens.old)) (above self.new) result }
    {
        let block = self.block(self.family.len(), tokens)?;
        self.family.push(Member { kind, block })?;
        Ok(())
    }

    /// The line of `require`.
    #[tactic(auto, unfolding(crate::specs::Statements::require_line))]
    pub(crate) fn require(&mut self, tokens: &mut Tokens<'_>) -> Result<(), Stop>
        ensures { GoesOn (require_line (above self.old) (left tokens.old)) (above self.new) result }
    {
        let block = self.block(self.stated_blocks(), tokens)?;
        self.required.push(block)?;
        Ok(())
    }

    /// The line of `forbid`.
    #[tactic(auto, unfolding(crate::specs::Statements::forbid_line))]
    pub(crate) fn forbid(&mut self, tokens: &mut Tokens<'_>) -> Result<(), Stop>
        ensures { GoesOn (forbid_line (above self.old) (left tokens.old)) (above self.new) result }
    {
        let block = self.block(self.stated_blocks(), tokens)?;
        self.forbidden.push(block)?;
        Ok(())
    }

    // How many blocks are required or forbidden.
    fn stated_blocks(&self) -> usize
        ensures { result ≡ length self.now.required.items + length self.now.forbidden.items }
    {
        self.required.len() + self.forbidden.len()
    }
}
