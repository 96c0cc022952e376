// A caller that rests on the clauses alone: it lists the design that was answered last, and says what remains.
ghost use Rattle.std.specs.Prelude.{◌≡◌, ◌∷◌, [], IfOk, IsSome, Some, option_map, false};
ghost use Rattle.df_walk.specs.Paths.{path_of};
ghost use Rattle.df_correspondence.specs.Designs.{asked, base};
ghost use Rattle.df_search.specs.declared.Turn.TheVariants as turn;
ghost use Rattle.df_design.specs.RemainingDesigns.{rest_designs, last_design, designs_from};

use crate::{Designs, OutOfMemory, ResumeError, Turn};
use df_matrix::OrbitMatrix;
use df_steps::Steps;
use df_subsets::Block;
use df_system::Path;
use df_walk::Rules;
use std::alloc::Global;
use std::sync::ledger::Ledger;

// All base blocks of the design that was answered last.
pub(crate) fn listed_reps(alloc: Global, designs: &Designs<'_>) -> Result<Vec<Block>, OutOfMemory>
    requires { IsSome designs.now.search.chosen }
    ensures { IfOk result (λ listed. option_map (base designs.now.problem) (last_design designs.now) ≡ Some listed.items) }
{
    let mut listed = Vec::new(alloc);
    let mut reps = designs.reps();
    while let Some(block) = reps.next() {
        listed.push(block)?;
    }
    Ok(listed)
}

// All blocks of the design that was answered last.
pub(crate) fn listed_blocks(alloc: Global, designs: &Designs<'_>) -> Result<Vec<Block>, OutOfMemory>
    requires { IsSome designs.now.search.chosen }
    ensures { IfOk result (λ listed. last_design designs.now ≡ Some listed.items) }
{
    let mut listed = Vec::new(alloc);
    let mut blocks = designs.blocks();
    while let Some(block) = blocks.next() {
        listed.push(block)?;
    }
    Ok(listed)
}

// The first of all designs that a problem asks for, if the budget reaches it: its blocks.
pub(crate) fn first_design<L: Ledger>(
    alloc: Global,
    matrix: &OrbitMatrix,
    rules: Rules,
    budget: &mut u64,
    steps: &mut Steps<L>,
) -> Result<Option<Vec<Block>>, OutOfMemory> {
    let mut designs = Designs::start(alloc, matrix, rules, steps)?;
    match designs.next(budget, steps) {
        Turn::Design => Ok(Some(listed_blocks(alloc, &designs)?)),
        Turn::Spent | Turn::Finished => Ok(None),
    }
}

// Whether a design remains from a path on, where the budget is enough to tell.
pub(crate) fn has_more<L: Ledger>(
    alloc: Global,
    matrix: &OrbitMatrix,
    path: &Path,
    rules: Rules,
    budget: &mut u64,
    steps: &mut Steps<L>,
) -> Result<Option<bool>, ResumeError>
    ensures none { IfOk result (λ more. more ≡ Some false → designs_from matrix.now (path_of path.now) ≡ []) }
{
    let mut designs = Designs::from_path(alloc, matrix, path, rules, steps)?;
    match designs.next(budget, steps) {
        Turn::Design => Ok(Some(true)),
        Turn::Spent => Ok(None),
        Turn::Finished => Ok(Some(false)),
    }
}
