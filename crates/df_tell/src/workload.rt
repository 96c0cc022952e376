// The line of a workload: how large its problem is, and what a search for the designs passed.
// The search leaps from design to design, and nothing is printed of one.
ghost use Rattle.std.specs.Prelude.{◌≡◌, ◌+◌, ◌<◌, ◌^◌, [], length, IfOk};
ghost use Rattle.df_io.specs.Writing.{Writes};
ghost use Rattle.df_runs.specs.Runs.{run_of};
ghost use Rattle.df_search.specs.Searches.{StandsBefore};
ghost use Rattle.df_lang.specs.Problems.{point_count};
ghost use Rattle.df_kramer_mesner.specs.OrbitSystems.{orbit_system, columns_of};
ghost use Rattle.df_tell.specs.Run.{run_end, as_written};
ghost use Rattle.df_tell.specs.RunSteps.{IsOf, AreCounted, run_left, Pays, EndsOrGoesOn, IsRan};
ghost use Rattle.df_tell.specs.Workload.{workload_line, workload_text};

use crate::run::{Counts, Ran, RunEnd};
use df_design::{Designs, Turn};
use df_io::{LineBuf, Sink, WriteFault, put_number, put_text, write_all};
use df_matrix::OrbitMatrix;
use df_steps::Steps;
use std::sync::ledger::Ledger;

/// Searches for the designs of a workload's problem as far as the budget goes, writes the line of that run, and says how it ended.
/// `designs` are those of the matrix, of which none was asked for yet. It takes no memory.
pub fn write_workload<K: Sink, L: Ledger>(
    number: u8,
    matrix: &OrbitMatrix,
    designs: &mut Designs<'_>,
    budget: u64,
    out: &mut K,
    steps: &mut Steps<L>,
) -> Result<RunEnd, WriteFault>
    requires search { IsOf matrix.now designs.old }
    requires begins { StandsBefore designs.old.search [] }
    ensures written { Writes K.written K.faults out.old out.new
        (workload_text number matrix.now
        (run_of designs.old.search.rules (orbit_system matrix.now) [] budget))
        (as_written result) }
    ensures end { IfOk result (λ end. end ≡ run_end
        (run_of designs.old.search.rules (orbit_system matrix.now) [] budget).stop) }
{
    let ran = count_steps(designs, budget, steps);
    let mut line = LineBuf::new();
    fill_workload(&mut line, number, matrix, ran.designs, ran.nodes);
    write_all(out, line.as_slice())?;
    Ok(ran.end)
}

// Passes the steps that the budget allows, and counts their designs and nodes.
fn count_steps<L: Ledger>(designs: &mut Designs<'_>, budget: u64, steps: &mut Steps<L>) -> Ran
    requires search { IsOf designs.old.problem designs.old }
    requires counted { AreCounted designs.old.search }
    ensures { IsRan designs.old.problem (run_left designs.old.search budget) designs.new.search result }
{
    let mut counts = Counts {
        designs: 0,
        left: budget,
    };
    loop {
        if let Some(end) = count_step(designs, &mut counts, steps) {
            return Ran {
                end,
                designs: counts.designs,
                nodes: budget - counts.left,
            };
        }
    }
}

// Passes all steps up to the next design, which it counts; or says how the run ended, where the
// budget allows no design more.
fn count_step<L: Ledger>(
    designs: &mut Designs<'_>,
    counts: &mut Counts,
    steps: &mut Steps<L>,
) -> Option<RunEnd>
    requires search { IsOf designs.old.problem designs.old }
    requires few { counts.old.designs + counts.old.left < 2 ^ 64 }
    ensures pays { Pays designs.old.problem designs.old designs.new counts.old counts.new }
    ensures ends { EndsOrGoesOn designs.old.search designs.new.search counts.new.left result }
{
    match designs.next(&mut counts.left, steps) {
        Turn::Design => {
            counts.designs += 1;
            None
        }
        Turn::Spent => Some(RunEnd::Spent),
        Turn::Finished => Some(RunEnd::Finished),
    }
}

// Fills the buffer with the line.
#[tactic(auto, unfolding(crate::specs::Workload::workload_line), using(df_io::proofs::NumbersBack::decimal_short))]
fn fill_workload(line: &mut LineBuf, number: u8, matrix: &OrbitMatrix, designs: u64, nodes: u64)
    ensures { line.new.items ≡ workload_line number (point_count matrix.now) (length (columns_of matrix.now)) designs nodes }
{
    line.clear();
    put_text(line, b"workload ");
    put_number(line, u64::from(number));
    put_text(line, b" points ");
    put_number(line, u64::from(matrix.problem().points()));
    put_text(line, b" columns ");
    put_number(line, u64::from(matrix.system().columns()));
    put_text(line, b" designs ");
    put_number(line, designs);
    put_text(line, b" nodes ");
    put_number(line, nodes);
    line.push(b'\n');
}
