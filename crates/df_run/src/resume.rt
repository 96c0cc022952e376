// The designs that a search has still to find: its dossier says how it goes on, by the rules of its head and from the path of its end line.
// All memory is taken before the first byte: by the dossier, by the matrix, and by the search when it is made.
ghost use Rattle.std.specs.Prelude.{◌≡◌, ◌≤◌, ◌<◌};
ghost use Rattle.df_run.specs.Answers.{answer_resumed, at_node, search_answer};
ghost use Rattle.df_run.specs.Endings.{Answers, RepliesOr};
ghost use Rattle.df_run.specs.Limits.{path_refusal};
ghost use Rattle.df_run.specs.Streams.{incoming, outgoing};
ghost use Rattle.df_kramer_mesner.specs.OrbitSystems.{orbit_system};
ghost use Rattle.df_walk.specs.Paths.{path_of};

use crate::answers::ended;
use crate::limits::LimitError;
use crate::matrix::matrix_of_problem;
use crate::search::answer_designs;
use crate::statuses::Status;
use crate::tasks::{StreamTask, Task};
use df_design::{Designs, ResumeError};
use df_dossier::{Spent, SpentError, StreamError, read_spent_stream};
use df_io::{Sink, Source};
use df_matrix::OrbitMatrix;
use df_search::paths_have_reasons;
use df_steps::Steps;
use df_tell::{PathRefusal, write_dossier_refusal, write_limit, write_path_refusal};
use df_words::Options;
use std::alloc::Global;
use std::marker::Brand;
use std::sync::ledger::{Blank, Ledger};

/// Answers `resume` to the lines of an input, which is read to its end.
pub fn answer_resume<I: Source, O: Sink>(
    alloc: Global,
    options: Options,
    input: &mut I,
    out: &mut O,
) -> Status
    ensures answers { Answers (Task.Stream (StreamTask.Resume options)) (incoming I.left I.faults input.old input.new) (outgoing O.written O.faults out.old out.new) result }
    ensures reads { I.faults input.old ≤ I.faults input.new }
    ensures writes { O.faults out.old ≤ O.faults out.new }
{
    match read_spent_stream(alloc, input) {
        Ok(spent) => answer_spent(alloc, options, &spent, out),
        Err(StreamError::Refused(SpentError::Refused { line, fault })) => {
            ended(Status::BadInput, write_dossier_refusal(line, &fault, out))
        }
        Err(StreamError::Refused(SpentError::OutOfMemory)) => Status::OutOfMemory,
        Err(StreamError::ReadFault) => Status::ReadFault,
        Err(StreamError::TooLong) => Status::TooLong,
    }
}

// Answers it to a dossier that ended spent.
fn answer_spent<O: Sink>(alloc: Global, options: Options, spent: &Spent, out: &mut O) -> Status
    ensures reply { RepliesOr (answer_resumed options spent.now) (outgoing O.written O.faults out.old out.new) result }
    ensures writes { O.faults out.old ≤ O.faults out.new }
{
    match matrix_of_problem(alloc, &spent.problem) {
        Ok(matrix) => answer_path::<O, Brand>(alloc, options, spent, &matrix, out, Blank::new(1)),
        Err(LimitError::Above(limit)) => ended(Status::BadInput, write_limit(limit, out)),
        Err(LimitError::OutOfMemory) => Status::OutOfMemory,
    }
}

// Searches on through the matrix of its problem from its path, where that is a node, as far as the budget goes.
fn answer_path<O: Sink, L: Ledger>(
    alloc: Global,
    options: Options,
    spent: &Spent,
    matrix: &OrbitMatrix,
    out: &mut O,
    blank: Blank,
) -> Status
    requires name { blank.name ≡ L.name }
    requires parts { blank.parts ≡ L.parts }
    requires some { 0 < blank.parts }
    requires matrix { matrix.now ≡ spent.now.problem }
    ensures reply { RepliesOr (at_node (path_refusal spent.now.rules (orbit_system spent.now.problem) spent.now.path) (search_answer spent.now.rules spent.now.problem options (path_of spent.now.path))) (outgoing O.written O.faults out.old out.new) result }
    ensures writes { O.faults out.old ≤ O.faults out.new }
{
    paths_have_reasons();
    let mut steps = Steps::<L>::new(blank);
    let rules = spent.rules;
    match Designs::from_path(alloc, matrix, &spent.path, rules, &mut steps) {
        Ok(mut designs) => {
            answer_designs(
                options,
                &spent.problem,
                &mut designs,
                rules,
                out,
                &mut steps,
            )
        }
        Err(ResumeError::PathRange { length, columns }) => {
            let refusal = PathRefusal::Long { length, columns };
            ended(Status::BadInput, write_path_refusal(refusal, out))
        }
        Err(ResumeError::NotNode(why)) => {
            ended(
                Status::BadInput,
                write_path_refusal(PathRefusal::NoNode(why), out),
            )
        }
        Err(ResumeError::OutOfMemory) => Status::OutOfMemory,
    }
}
