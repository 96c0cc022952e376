// The designs that a problem asks for: the run of a new search through its orbit matrix, by the rules with divisors.
// All memory is taken before the first byte: by the matrix, by the search when it is made, and by a listing.
ghost use Rattle.std.specs.Prelude.{◌≡◌, ◌≤◌, ◌<◌, []};
ghost use Rattle.df_run.specs.Answers.{answer_on, solve_answer};
ghost use Rattle.df_run.specs.Endings.{RepliesOr};
ghost use Rattle.df_run.specs.Streams.{outgoing};

use crate::answers::ended;
use crate::limits::LimitError;
use crate::listing::answer_listing;
use crate::matrix::matrix_of_problem;
use crate::search::answer_designs;
use crate::statuses::Status;
use crate::tasks::SourceTask;
use df_design::{Designs, Rules};
use df_io::Sink;
use df_lang::Problem;
use df_matrix::OrbitMatrix;
use df_steps::Steps;
use df_tell::write_limit;
use df_words::Options;
use std::alloc::Global;
use std::marker::Brand;
use std::sync::ledger::{Blank, Ledger};

/// Answers `solve` to a problem.
pub fn answer_solve<O: Sink>(
    alloc: Global,
    options: Options,
    problem: &Problem,
    out: &mut O,
) -> Status
    ensures reply { RepliesOr (answer_on (SourceTask.Solve options) problem.now) (outgoing O.written O.faults out.old out.new) result }
    ensures writes { O.faults out.old ≤ O.faults out.new }
{
    match matrix_of_problem(alloc, problem) {
        Ok(matrix) => answer_start::<O, Brand>(
            alloc,
            options,
            problem,
            &matrix,
            out,
            Blank::new(1),
        ),
        Err(LimitError::Above(limit)) => ended(Status::BadInput, write_limit(limit, out)),
        Err(LimitError::OutOfMemory) => Status::OutOfMemory,
    }
}

// Searches through the matrix of a problem, from its first node on, as far as the budget goes.
fn answer_start<O: Sink, L: Ledger>(
    alloc: Global,
    options: Options,
    problem: &Problem,
    matrix: &OrbitMatrix,
    out: &mut O,
    blank: Blank,
) -> Status
    requires name { blank.name ≡ L.name }
    requires parts { blank.parts ≡ L.parts }
    requires some { 0 < blank.parts }
    requires matrix { matrix.now ≡ problem.now }
    ensures reply { RepliesOr (solve_answer problem.now options) (outgoing O.written O.faults out.old out.new) result }
    ensures writes { O.faults out.old ≤ O.faults out.new }
{
    let mut steps = Steps::<L>::new(blank);
    let rules = Rules::Divisor;
    let Ok(mut designs) = Designs::start(alloc, matrix, rules, &mut steps) else {
        return Status::OutOfMemory;
    };
    if options.json {
        answer_listing(alloc, options, problem, &mut designs, out, &mut steps)
    } else {
        answer_designs(options, problem, &mut designs, rules, out, &mut steps)
    }
}
