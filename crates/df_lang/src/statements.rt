// Takes the statements of a source, one by one.
ghost use Rattle.std.specs.Prelude.{◌≡◌, ◌∷◌, ◌++◌, ◌≤◌, [], length, map, None, Ok, Err, MatchResult};
ghost use Rattle.df_io.specs.Lines.{left};
ghost use Rattle.df_lang.specs.Drafts.{above, Goes, GoesOn};
ghost use Rattle.df_lang.specs.StandsAbove.{group_of};
ghost use Rattle.df_lang.specs.Stored.{named};
ghost use Rattle.df_lang.specs.Values.{place_of};
ghost use Rattle.df_lang.specs.Statements.{group_line, fixed_line, subgroup_line, shift_line, mult_line, size_line, lambda_line, inside_line, hole_line};

use crate::draft::Draft;
use crate::fault::{Needed, SourceFault, Stop};
use crate::generators::elements;
use crate::groups::group;
use crate::lookups::{new_name, which};
use crate::multipliers::multipliers;
use crate::pieces::{Inside, Name};
use crate::problem::{MOST_TARGET, NAMES_LIMIT};
use crate::sizes::{size_list, sizes};
use crate::tokens::{end, needed, number_in, one_number};
use df_group::{Shape, Subgroup};
use df_io::Tokens;
use std::alloc::Global;

impl Draft {
    /// The line of `group`.
    #[tactic(auto, unfolding(crate::specs::Statements::group_line))]
    pub(crate) fn group(&mut self, tokens: &mut Tokens<'_>) -> Result<(), SourceFault>
        ensures { Goes (group_line (above self.old) (left tokens.old)) (above self.new) result }
    {
        if self.group.is_some() {
            return Err(SourceFault::Repeated);
        }
        let shape = group(tokens)?;
        self.group = Some(shape);
        Ok(())
    }

    // The group, which has to stand above.
    fn shape(&self) -> Result<&Shape, SourceFault>
        ensures { MatchResult result (λ shape. group_of (above self.now) ≡ Ok shape.now) (λ fault. group_of (above self.now) ≡ Err fault) }
    {
        match &self.group {
            Some(shape) => Ok(shape),
            None => Err(SourceFault::Missing(Needed::Group)),
        }
    }

    /// The line of `fixed`.
    #[tactic(auto, unfolding(crate::specs::Statements::fixed_line))]
    pub(crate) fn fixed(&mut self, tokens: &mut Tokens<'_>) -> Result<(), SourceFault>
        ensures { Goes (fixed_line (above self.old) (left tokens.old)) (above self.new) result }
    {
        if self.fixed.is_some() {
            return Err(SourceFault::Repeated);
        }
        let most = (128 - self.shape()?.order()).min(16);
        let fixed = one_number(0, u64::from(most), SourceFault::FixedRange, tokens)?;
        self.fixed = Some(fixed as u8);
        Ok(())
    }

    /// The line of `subgroup`.
    #[tactic(auto, unfolding(crate::specs::Statements::subgroup_line, crate::specs::Values::subgroup_of))]
    pub(crate) fn subgroup(&mut self, alloc: Global, tokens: &mut Tokens<'_>) -> Result<(), Stop>
        ensures { GoesOn (subgroup_line (above self.old) (left tokens.old)) (above self.new) result }
    {
        let shape = self.shape()?;
        let token = needed(tokens)?;
        let name = new_name(&self.names, token)?;
        let elements = elements(alloc, shape, tokens)?;
        let subgroup = Subgroup::generate(shape, elements.as_slice());
        self.add_subgroup(name, subgroup)
    }

    // A table of one name less than `NAMES_LIMIT` is full. No source of at most 4,294,967,296 bytes fills it.
    fn add_subgroup(&mut self, name: Name, subgroup: Subgroup) -> Result<(), Stop>
        requires absent { place_of (map named self.old.names.entries) name.items ≡ None }
        requires short { length name.items ≤ 16 }
        ensures { GoesOn (Ok (record (above self.old) { names = (above self.old).names ++ (name.items, subgroup) ∷ [] })) (above self.new) result }
    {
        if self.names.len() >= NAMES_LIMIT - 1 {
            return Err(Stop::OutOfMemory);
        }
        self.names.insert(name, subgroup)?;
        Ok(())
    }

    /// The line of `shift`.
    #[tactic(auto, unfolding(crate::specs::Statements::shift_line, crate::specs::Values::shift_of))]
    pub(crate) fn shift(&mut self, tokens: &mut Tokens<'_>) -> Result<(), SourceFault>
        ensures { Goes (shift_line (above self.old) (left tokens.old)) (above self.new) result }
    {
        if self.shift.is_some() {
            return Err(SourceFault::Repeated);
        }
        self.shape()?;
        let token = needed(tokens)?;
        let subgroup = which(&self.names, token)?;
        end(tokens)?;
        self.shift = Some(subgroup);
        Ok(())
    }

    /// The line of `mult`.
    #[tactic(auto, unfolding(crate::specs::Statements::mult_line))]
    pub(crate) fn mult(&mut self, tokens: &mut Tokens<'_>) -> Result<(), SourceFault>
        ensures { Goes (mult_line (above self.old) (left tokens.old)) (above self.new) result }
    {
        if self.mults.is_some() {
            return Err(SourceFault::Repeated);
        }
        let mults = multipliers(self.shape()?, tokens)?;
        self.mults = Some(mults);
        Ok(())
    }

    /// The line of `k`.
    #[tactic(auto, unfolding(crate::specs::Statements::size_line))]
    pub(crate) fn size(&mut self, tokens: &mut Tokens<'_>) -> Result<(), SourceFault>
        ensures { Goes (size_line (above self.old) (left tokens.old)) (above self.new) result }
    {
        if self.sizes.is_some() {
            return Err(SourceFault::Repeated);
        }
        let points = self.shape()?.order() + self.fixed.unwrap_or(0);
        let set = sizes(self.version.unwrap_or(1), u64::from(points.min(16)), tokens)?;
        self.sizes = Some(size_list(&set));
        Ok(())
    }

    /// The line of `lambda`.
    #[tactic(auto, unfolding(crate::specs::Statements::lambda_line))]
    pub(crate) fn lambda(&mut self, tokens: &mut Tokens<'_>) -> Result<(), SourceFault>
        ensures { Goes (lambda_line (above self.old) (left tokens.old)) (above self.new) result }
    {
        if self.lambda.is_some() {
            return Err(SourceFault::Repeated);
        }
        self.shape()?;
        let target = one_number(0, MOST_TARGET, SourceFault::TargetRange, tokens)?;
        self.lambda = Some(target as u32);
        Ok(())
    }

    /// The line of `inside`.
    #[tactic(auto, unfolding(crate::specs::Statements::inside_line, crate::specs::Values::inside_of))]
    pub(crate) fn inside(&mut self, tokens: &mut Tokens<'_>) -> Result<(), SourceFault>
        ensures { Goes (inside_line (above self.old) (left tokens.old)) (above self.new) result }
    {
        if self.inside.is_some() {
            return Err(SourceFault::Repeated);
        }
        self.shape()?;
        let first = needed(tokens)?;
        let subgroup = which(&self.names, first)?;
        let second = needed(tokens)?;
        let target = number_in(0, MOST_TARGET, SourceFault::TargetRange, second)?;
        end(tokens)?;
        self.inside = Some(Inside {
            subgroup,
            target: target as u32,
        });
        Ok(())
    }

    /// The line of `hole`.
    #[tactic(auto, unfolding(crate::specs::Statements::hole_line))]
    pub(crate) fn hole(&mut self, tokens: &mut Tokens<'_>) -> Result<(), SourceFault>
        ensures { Goes (hole_line (above self.old) (left tokens.old)) (above self.new) result }
    {
        if self.hole.is_some() {
            return Err(SourceFault::Repeated);
        }
        self.shape()?;
        let target = one_number(0, MOST_TARGET, SourceFault::TargetRange, tokens)?;
        self.hole = Some(target as u32);
        Ok(())
    }
}
