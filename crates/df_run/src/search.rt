// The run of a search from where it stands, as an answer: what a new search and one that goes on have in common.
ghost use Rattle.std.specs.Prelude.{◌≡◌, ◌≤◌, List, Bool, Some};
ghost use Rattle.df_runs.specs.Runs.{run_of};
ghost use Rattle.df_kramer_mesner.specs.OrbitSystems.{orbit_system};
ghost use Rattle.df_tell.specs.Run.{MayRun};
ghost use Rattle.df_run.specs.Answers.{run_answer};
ghost use Rattle.df_run.specs.Endings.{Replies};
ghost use Rattle.df_run.specs.Statuses.{ran_status};
ghost use Rattle.df_run.specs.Streams.{outgoing};

use crate::statuses::Status;
use df_design::{Designs, Rules};
use df_io::{Sink, WriteFault};
use df_lang::Problem;
use df_steps::Steps;
use df_tell::{RunEnd, Shown, write_run};
use df_words::Options;
use std::sync::ledger::Ledger;

/// Searches on from where the search stands, as far as the budget goes, and answers with the text. It takes no memory.
/// `designs` are those of the problem and may be asked for their place; they go by the rules.
pub fn answer_designs<O: Sink, L: Ledger>(
    options: Options,
    problem: &Problem,
    designs: &mut Designs<'_>,
    rules: Rules,
    out: &mut O,
    steps: &mut Steps<L>,
) -> Status
    requires { MayRun rules problem.now designs.old }
    ensures reply { (p : List Bool) → designs.old.search.place ≡ Some p → Replies (run_answer rules problem.now options p (run_of rules (orbit_system problem.now) p options.budget)) (outgoing O.written O.faults out.old out.new) result }
    ensures writes { O.faults out.old ≤ O.faults out.new }
{
    let shown = Shown {
        log: options.log,
        blocks: options.blocks,
    };
    ran(write_run(problem, designs, rules, options.budget, shown, out, steps))
}

/// The status of a run whose text was written.
pub fn ran(written: Result<RunEnd, WriteFault>) -> Status
    ensures { result ≡ ran_status written }
{
    match written {
        Ok(RunEnd::Finished) => Status::Done,
        Ok(RunEnd::Spent) => Status::Spent,
        Err(WriteFault) => Status::WriteFault,
    }
}
