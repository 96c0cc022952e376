// The text of a run as a JSON listing, whose designs are gathered as the search comes to them, and printed once all are there.
// The search leaps from design to design, as in a run without a log, and stands at the empty path when it begins: a listing is
// never gone on with.
ghost use Rattle.std.specs.Prelude.{◌≡◌, ◌+◌, ◌<◌, ◌^◌, List, ℕ, [], length, map, is_some, unwrap_or, option_map, if◌then◌else◌, Some, IfOk, OnOk, IsSome};
ghost use Rattle.df_walk.specs.Paths.{written_path};
ghost use Rattle.df_walk.specs.Solutions.{chosen_columns};
ghost use Rattle.df_runs.specs.Runs.{run_of};
ghost use Rattle.df_search.specs.Searches.{StandsBefore};
ghost use Rattle.df_kramer_mesner.specs.OrbitSystems.{orbit_system};
ghost use Rattle.df_correspondence.specs.Designs.{base};
ghost use Rattle.df_design.specs.RemainingDesigns.{last_design};
ghost use Rattle.df_list.specs.Listings.{with_design};
ghost use Rattle.df_tell.specs.declared.run.RunEnd.TheVariants.{Spent};
ghost use Rattle.df_tell.specs.Listing.{listed_design, designs_of, run_listing, with_designs, Lists};
ghost use Rattle.df_tell.specs.Run.{run_end};
ghost use Rattle.df_tell.specs.RunSteps.{IsOf, AreCounted, run_left, stop_at, EndsOrGoesOn, IsRan};

use crate::OutOfMemory;
use crate::run::{Counts, Ran, RunEnd};
use df_design::{Blocks, Designs, PathView, Reps, Turn};
use df_dossier::paths_may_stand;
use df_lang::Problem;
use df_list::Listing;
use df_steps::Steps;
use df_subsets::Block;
use df_system::Path;
use std::alloc::Global;
use std::sync::ledger::Ledger;

/// The listing of a run, whole, and how the run ended.
#[derive(Drop)]
pub struct ListedRun {
    /// How the run ended.
    pub end: RunEnd,
    /// The listing: one line of JSON with its line feed.
    pub text: Vec<u8>,
}

/// Searches as far as the budget goes, and makes the listing of that run: the designs that it found, with all blocks of each where
/// these are asked for, the path where it goes on if it was spent, and how many nodes it visited.
/// `designs` are those of the problem, of which none was asked for yet. Out of memory it refuses, and the designs found are given up.
pub fn list_run<L: Ledger>(
    alloc: Global,
    problem: &Problem,
    designs: &mut Designs<'_>,
    budget: u64,
    blocks: bool,
    steps: &mut Steps<L>,
) -> Result<ListedRun, OutOfMemory>
    requires search { IsOf problem.now designs.old }
    requires begins { StandsBefore designs.old.search [] }
    ensures listed { IfOk result (λ run. run.text.items ≡ run_listing blocks problem.now
        (run_of designs.old.search.rules (orbit_system problem.now) [] budget)) }
    ensures end { IfOk result (λ run. run.end ≡ run_end
        (run_of designs.old.search.rules (orbit_system problem.now) [] budget).stop) }
{
    let mut listing = Listing::new(alloc, problem, blocks)?;
    let ran = list_steps(alloc, designs, budget, blocks, &mut listing, steps)?;
    let end = ran.end;
    let next = next_path(alloc, designs, end)?;
    let text = listing.finish(next, ran.nodes)?;
    Ok(ListedRun { end, text })
}

// Passes the steps that the budget allows, and lists their designs.
fn list_steps<L: Ledger>(
    alloc: Global,
    designs: &mut Designs<'_>,
    budget: u64,
    blocks: bool,
    listing: &mut Listing<'_>,
    steps: &mut Steps<L>,
) -> Result<Ran, OutOfMemory>
    requires search { IsOf designs.old.problem designs.old }
    requires counted { AreCounted designs.old.search }
    requires shown { listing.old.blocks ≡ blocks }
    ensures ran { IfOk result
        (IsRan designs.old.problem (run_left designs.old.search budget) designs.new.search) }
    ensures listed { OnOk result (listing.new ≡ with_designs listing.old blocks designs.old.problem
        (designs_of designs.old.problem (run_left designs.old.search budget).taken)) }
{
    let mut counts = Counts {
        designs: 0,
        left: budget,
    };
    loop {
        let end = list_step(alloc, designs, &mut counts, blocks, listing, steps)?;
        if let Some(end) = end {
            return Ok(Ran {
                end,
                designs: counts.designs,
                nodes: budget - counts.left,
            });
        }
    }
}

// Passes all steps up to the next design, which it lists; or says how the run ended, where the
// budget allows no design more.
fn list_step<L: Ledger>(
    alloc: Global,
    designs: &mut Designs<'_>,
    counts: &mut Counts,
    blocks: bool,
    listing: &mut Listing<'_>,
    steps: &mut Steps<L>,
) -> Result<Option<RunEnd>, OutOfMemory>
    requires search { IsOf designs.old.problem designs.old }
    requires few { counts.old.designs + counts.old.left < 2 ^ 64 }
    requires shown { listing.old.blocks ≡ blocks }
    ensures lists { OnOk result (Lists blocks designs.old.problem designs.old designs.new
        counts.old counts.new listing.old listing.new) }
    ensures ends { IfOk result
        (EndsOrGoesOn designs.old.search designs.new.search counts.new.left) }
{
    match designs.next(&mut counts.left, steps) {
        Turn::Design => {
            counts.designs += 1;
            list_design(alloc, designs, blocks, listing)?;
            Ok(None)
        }
        Turn::Spent => Ok(Some(RunEnd::Spent)),
        Turn::Finished => Ok(Some(RunEnd::Finished)),
    }
}

// Lists the design that was found: its base blocks, and its blocks where they are asked for.
fn list_design(
    alloc: Global,
    designs: &Designs<'_>,
    blocks: bool,
    listing: &mut Listing<'_>,
) -> Result<(), OutOfMemory>
    requires chosen { IsSome designs.now.search.chosen }
    requires shown { listing.old.blocks ≡ blocks }
    ensures { (design : List (List ℕ)) → last_design designs.now ≡ Some design
        → OnOk result (listing.new ≡ with_design listing.old (listed_design blocks designs.now.problem design)) }
{
    let base = base_blocks(alloc, designs)?;
    let all = all_blocks(alloc, designs, blocks)?;
    listing.add(base, all)
}

// The base blocks of the design that was found.
fn base_blocks(alloc: Global, designs: &Designs<'_>) -> Result<Vec<Block>, OutOfMemory>
    requires { IsSome designs.now.search.chosen }
    ensures { (design : List (List ℕ)) → last_design designs.now ≡ Some design
        → IfOk result (λ list. list.items ≡ base designs.now.problem design) }
{
    let reps = designs.reps();
    collect_reps(alloc, reps)
}

// Its blocks, where they are asked for.
fn all_blocks(
    alloc: Global,
    designs: &Designs<'_>,
    blocks: bool,
) -> Result<Option<Vec<Block>>, OutOfMemory>
    requires { IsSome designs.now.search.chosen }
    ensures shown { IfOk result (λ all. is_some all ≡ blocks) }
    ensures value { (design : List (List ℕ)) → last_design designs.now ≡ Some design
        → IfOk result (λ all. unwrap_or (option_map (λ list. list.items) all) [] ≡ (if blocks then design else [])) }
{
    if blocks {
        let left = designs.blocks();
        let list = collect_blocks(alloc, left)?;
        Ok(Some(list))
    } else {
        Ok(None)
    }
}

// Base blocks, as a list of their own.
fn collect_reps(alloc: Global, reps: Reps<'_>) -> Result<Vec<Block>, OutOfMemory>
    ensures { IfOk result (λ list. list.items ≡ reps.entry) }
{
    let mut list = Vec::new(alloc);
    let mut rest = reps;
    while let Some(block) = rest.next() {
        list.push(block)?;
    }
    Ok(list)
}

// Blocks, as a list of their own.
fn collect_blocks(alloc: Global, blocks: Blocks<'_>) -> Result<Vec<Block>, OutOfMemory>
    ensures { IfOk result (λ list. list.items ≡ blocks.entry) }
{
    let mut list = Vec::new(alloc);
    let mut rest = blocks;
    while let Some(block) = rest.next() {
        list.push(block)?;
    }
    Ok(list)
}

// The path where a run goes on that ended so.
fn next_path(alloc: Global, designs: &Designs<'_>, end: RunEnd) -> Result<Option<Path>, OutOfMemory>
    requires { end ≡ Spent → IsSome designs.now.search.place }
    ensures { IfOk result (λ next. next ≡ option_map written_path (stop_at end designs.now.search)) }
{
    match end {
        RunEnd::Finished => Ok(None),
        RunEnd::Spent => {
            let place = designs.place();
            let path = copied_path(alloc, place)?;
            Ok(Some(path))
        }
    }
}

// A path that is lent, as one of its own.
fn copied_path(alloc: Global, path: PathView<'_>) -> Result<Path, OutOfMemory>
    requires { path.length ≡ length path.decisions.now }
    ensures { IfOk result (λ copy. copy ≡ written_path path.entry.decisions.now) }
{
    paths_may_stand();
    let chosen = yes_columns(alloc, path.length, path.decisions)?;
    match Path::new(path.length, chosen) {
        Some(copy) => Ok(copy),
        None => unreachable!(),
    }
}

// The columns that a path decides with yes.
fn yes_columns(alloc: Global, columns: u32, decisions: &[bool]) -> Result<Vec<u32>, OutOfMemory>
    requires { columns ≡ length decisions.now }
    ensures { IfOk result (λ chosen. chosen.items ≡ chosen_columns decisions.now) }
{
    let mut chosen = Vec::new(alloc);
    for column in 0..columns {
        if decisions[column as usize] {
            chosen.push(column)?;
        }
    }
    Ok(chosen)
}
