// A workload: the search for the designs of a problem that is known by its number, of which the line says how much there was to do.
// It reads nothing: the problem is stated by a source that is written here.
ghost use Rattle.std.specs.Prelude.{◌≡◌, ◌≤◌, ◌<◌, []};
ghost use Rattle.df_run.specs.Answers.{answer, answer_worked, work_answer};
ghost use Rattle.df_run.specs.Endings.{Replies, RepliesOr};
ghost use Rattle.df_run.specs.Streams.{outgoing};
ghost use Rattle.df_run.specs.Workloads.{workload_source};
ghost use Rattle.df_runs.specs.Runs.{run_of};
ghost use Rattle.df_kramer_mesner.specs.OrbitSystems.{orbit_system};
ghost use Rattle.df_walk.specs.declared.Rules.TheVariants.{Divisor};

use crate::answers::ended;
use crate::limits::LimitError;
use crate::matrix::matrix_of_problem;
use crate::search::ran;
use crate::statuses::Status;
use crate::tasks::Task;
use df_design::{Designs, Rules};
use df_io::{LineBuf, Sink, put_number, put_text};
use df_lang::{ParseError, Problem, parse};
use df_matrix::OrbitMatrix;
use df_steps::Steps;
use df_tell::{write_limit, write_refusal, write_workload};
use df_words::DEFAULT_BUDGET;
use std::alloc::Global;
use std::marker::Brand;
use std::sync::ledger::{Blank, Ledger};

/// Answers the workload of this number.
pub fn answer_workload<O: Sink>(alloc: Global, number: u8, out: &mut O) -> Status
    ensures reply { RepliesOr (answer (Task.Work number) []) (outgoing O.written O.faults out.old out.new) result }
    ensures writes { O.faults out.old ≤ O.faults out.new }
{
    let mut source = LineBuf::new();
    fill_source(&mut source, number);
    match parse(alloc, source.as_slice()) {
        Ok(problem) => answer_work(alloc, number, &problem, out),
        Err(ParseError::Refused(error)) => ended(Status::BadInput, write_refusal(&error, out)),
        Err(ParseError::OutOfMemory) => Status::OutOfMemory,
    }
}

// Fills the buffer with the source of its problem: a cyclic group of 6n + 5 points, blocks of 3, and the target 6n + 3.
#[tactic(auto, unfolding(crate::specs::Workloads::workload_source), using(df_io::proofs::NumbersBack::decimal_short))]
fn fill_source(source: &mut LineBuf, number: u8)
    ensures { source.new.items ≡ workload_source number }
{
    let number = u64::from(number);
    source.clear();
    put_text(source, b"group ");
    put_number(source, 6 * number + 5);
    put_text(source, b"\nk 3\nlambda ");
    put_number(source, 6 * number + 3);
    source.push(b'\n');
}

// Answers it with its problem.
fn answer_work<O: Sink>(alloc: Global, number: u8, problem: &Problem, out: &mut O) -> Status
    ensures reply { RepliesOr (answer_worked number problem.now) (outgoing O.written O.faults out.old out.new) result }
    ensures writes { O.faults out.old ≤ O.faults out.new }
{
    match matrix_of_problem(alloc, problem) {
        Ok(matrix) => search_through::<O, Brand>(alloc, number, &matrix, out, Blank::new(1)),
        Err(LimitError::Above(limit)) => ended(Status::BadInput, write_limit(limit, out)),
        Err(LimitError::OutOfMemory) => Status::OutOfMemory,
    }
}

// Searches through the matrix of its problem, from the first node on, as far as the default budget goes.
fn search_through<O: Sink, L: Ledger>(
    alloc: Global,
    number: u8,
    matrix: &OrbitMatrix,
    out: &mut O,
    blank: Blank,
) -> Status
    requires name { blank.name ≡ L.name }
    requires parts { blank.parts ≡ L.parts }
    requires some { 0 < blank.parts }
    ensures reply { RepliesOr (work_answer number matrix.now (run_of Divisor (orbit_system matrix.now) [] DEFAULT_BUDGET)) (outgoing O.written O.faults out.old out.new) result }
    ensures writes { O.faults out.old ≤ O.faults out.new }
{
    let mut steps = Steps::<L>::new(blank);
    let Ok(mut designs) = Designs::start(alloc, matrix, Rules::Divisor, &mut steps) else {
        return Status::OutOfMemory;
    };
    ran(write_workload(
        number,
        matrix,
        &mut designs,
        DEFAULT_BUDGET,
        out,
        &mut steps,
    ))
}
