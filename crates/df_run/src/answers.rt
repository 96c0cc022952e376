// What is answered to a source.
ghost use Rattle.std.specs.Prelude.{◌≡◌, ◌≤◌, length, is_ok, if◌then◌else◌};
ghost use Rattle.df_run.specs.Answers.{answer, answer_on, verdict_status};
ghost use Rattle.df_run.specs.Endings.{RepliesOr};
ghost use Rattle.df_run.specs.Streams.{outgoing};

use crate::limits::LimitError;
use crate::matrix::matrix_of_problem;
use crate::orbits::orbits_of_problem;
use crate::solve::answer_solve;
use crate::statuses::Status;
use crate::tasks::{SOURCE_BYTES, SourceTask, Task};
use df_family::{Verdict, difference_table, verify};
use df_io::{Sink, WriteFault};
use df_lang::{ParseError, Problem, parse};
use df_tell::{
    write_canonical, write_limit, write_matrix, write_orbits, write_refusal, write_table,
    write_verdict,
};
use std::alloc::Global;

/// Answers a task to these bytes.
pub fn answer_bytes<O: Sink>(alloc: Global, task: SourceTask, bytes: &[u8], out: &mut O) -> Status
    requires { length bytes.now ≤ SOURCE_BYTES }
    ensures reply { RepliesOr (answer (Task.Source task) bytes.now) (outgoing O.written O.faults out.old out.new) result }
    ensures writes { O.faults out.old ≤ O.faults out.new }
{
    match parse(alloc, bytes) {
        Ok(problem) => answer_problem(alloc, task, &problem, out),
        Err(ParseError::Refused(error)) => ended(Status::BadInput, write_refusal(&error, out)),
        Err(ParseError::OutOfMemory) => Status::OutOfMemory,
    }
}

// Answers a task to a problem.
fn answer_problem<O: Sink>(
    alloc: Global,
    task: SourceTask,
    problem: &Problem,
    out: &mut O,
) -> Status
    ensures reply { RepliesOr (answer_on task problem.now) (outgoing O.written O.faults out.old out.new) result }
    ensures writes { O.faults out.old ≤ O.faults out.new }
{
    match task {
        SourceTask::Show => ended(Status::Done, write_canonical(problem, out)),
        SourceTask::Table => answer_table(alloc, problem, out),
        SourceTask::Verify => answer_verify(alloc, problem, out),
        SourceTask::Orbits => answer_orbits(alloc, problem, out),
        SourceTask::Matrix => answer_matrix(alloc, problem, out),
        SourceTask::Solve(options) => answer_solve(alloc, options, problem, out),
    }
}

// Answers `table` to a problem.
fn answer_table<O: Sink>(alloc: Global, problem: &Problem, out: &mut O) -> Status
    ensures reply { RepliesOr (answer_on SourceTask.Table problem.now) (outgoing O.written O.faults out.old out.new) result }
    ensures writes { O.faults out.old ≤ O.faults out.new }
{
    match difference_table(alloc, problem) {
        Err(_) => Status::OutOfMemory,
        Ok(table) => ended(Status::Done, write_table(problem, &table, out)),
    }
}

// Answers `verify` to a problem.
fn answer_verify<O: Sink>(alloc: Global, problem: &Problem, out: &mut O) -> Status
    ensures reply { RepliesOr (answer_on SourceTask.Verify problem.now) (outgoing O.written O.faults out.old out.new) result }
    ensures writes { O.faults out.old ≤ O.faults out.new }
{
    match verify(alloc, problem) {
        Err(_) => Status::OutOfMemory,
        Ok(verdict) => ended(status(&verdict), write_verdict(problem, verdict, out)),
    }
}

// Answers `orbits` to a problem.
fn answer_orbits<O: Sink>(alloc: Global, problem: &Problem, out: &mut O) -> Status
    ensures reply { RepliesOr (answer_on SourceTask.Orbits problem.now) (outgoing O.written O.faults out.old out.new) result }
    ensures writes { O.faults out.old ≤ O.faults out.new }
{
    match orbits_of_problem(alloc, problem) {
        Ok(orbits) => ended(Status::Done, write_orbits(&orbits, out)),
        Err(LimitError::Above(limit)) => ended(Status::BadInput, write_limit(limit, out)),
        Err(LimitError::OutOfMemory) => Status::OutOfMemory,
    }
}

// Answers `matrix` to a problem.
fn answer_matrix<O: Sink>(alloc: Global, problem: &Problem, out: &mut O) -> Status
    ensures reply { RepliesOr (answer_on SourceTask.Matrix problem.now) (outgoing O.written O.faults out.old out.new) result }
    ensures writes { O.faults out.old ≤ O.faults out.new }
{
    match matrix_of_problem(alloc, problem) {
        Ok(matrix) => ended(Status::Done, write_matrix(&matrix, out)),
        Err(LimitError::Above(limit)) => ended(Status::BadInput, write_limit(limit, out)),
        Err(LimitError::OutOfMemory) => Status::OutOfMemory,
    }
}

fn status(verdict: &Verdict) -> Status
    ensures { result ≡ verdict_status verdict.now }
{
    match verdict {
        Verdict::Accepted { .. } => Status::Done,
        Verdict::Refused { .. } => Status::Refused,
    }
}

/// The status, where its text was written.
pub fn ended(status: Status, written: Result<(), WriteFault>) -> Status
    ensures { result ≡ (if is_ok written then status else Status.WriteFault) }
{
    match written {
        Ok(()) => status,
        Err(WriteFault) => Status::WriteFault,
    }
}
