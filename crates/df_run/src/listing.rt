// The run of a new search, as an answer with a listing, which is whole before its first byte is written.
ghost use Rattle.std.specs.Prelude.{◌≡◌, ◌≤◌, []};
ghost use Rattle.df_runs.specs.Runs.{run_of};
ghost use Rattle.df_search.specs.Searches.{StandsBefore};
ghost use Rattle.df_kramer_mesner.specs.OrbitSystems.{orbit_system};
ghost use Rattle.df_tell.specs.RunSteps.{IsOf};
ghost use Rattle.df_run.specs.Answers.{listing_answer};
ghost use Rattle.df_run.specs.Endings.{RepliesOr};
ghost use Rattle.df_run.specs.Streams.{outgoing};

use crate::answers::ended;
use crate::search::ran;
use crate::statuses::Status;
use df_design::Designs;
use df_io::{Sink, write_all};
use df_lang::Problem;
use df_steps::Steps;
use df_tell::list_run;
use df_words::Options;
use std::alloc::Global;
use std::sync::ledger::Ledger;

/// Searches as far as the budget goes, and answers with the listing. `designs` are those of the problem, of which none was asked for yet.
pub fn answer_listing<O: Sink, L: Ledger>(
    alloc: Global,
    options: Options,
    problem: &Problem,
    designs: &mut Designs<'_>,
    out: &mut O,
    steps: &mut Steps<L>,
) -> Status
    requires search { IsOf problem.now designs.old }
    requires begins { StandsBefore designs.old.search [] }
    ensures reply { RepliesOr (listing_answer problem.now options (run_of designs.old.search.rules (orbit_system problem.now) [] options.budget)) (outgoing O.written O.faults out.old out.new) result }
    ensures writes { O.faults out.old ≤ O.faults out.new }
{
    match list_run(
        alloc,
        problem,
        designs,
        options.budget,
        options.blocks,
        steps,
    ) {
        Ok(run) => {
            let status = ran(Ok(run.end));
            ended(status, write_all(out, run.text.as_slice()))
        }
        Err(_) => Status::OutOfMemory,
    }
}
