// Whether an input is a chain of dossiers that proves its designs to be all. A line of it is held at a time, beside the first source and
// its orbit matrix.
ghost use Rattle.std.specs.Prelude.{◌≡◌, ◌≤◌};
ghost use Rattle.df_run.specs.Answers.{bad_input, limit_line};
ghost use Rattle.df_run.specs.Endings.{Answers, RepliesOr};
ghost use Rattle.df_run.specs.Limits.{IsCountable, limit_of};
ghost use Rattle.df_run.specs.Streams.{incoming, outgoing};

use crate::answers::ended;
use crate::limits::{LimitError, limited};
use crate::statuses::Status;
use crate::tasks::{StreamTask, Task};
use df_check::chain_laws::limits_are_of_problems;
use df_check::{CheckError, CheckVerdict, check_stream};
use df_dossier::StreamError;
use df_io::{Sink, Source};
use df_kramer_mesner::columns_are_sparse;
use df_matrix::MatrixError;
use df_tell::{write_complete, write_dossier_refusal, write_limit, write_log_refusal};
use std::alloc::Global;

/// Answers `check` to the lines of an input, which is read to its end.
pub fn answer_check<I: Source, O: Sink>(alloc: Global, input: &mut I, out: &mut O) -> Status
    ensures answers { Answers (Task.Stream StreamTask.Check) (incoming I.left I.faults input.old input.new) (outgoing O.written O.faults out.old out.new) result }
    ensures reads { I.faults input.old ≤ I.faults input.new }
    ensures writes { O.faults out.old ≤ O.faults out.new }
{
    columns_are_sparse();
    limits_are_of_problems();
    match check_stream(alloc, input) {
        Ok(CheckVerdict::Complete { designs }) => {
            ended(Status::Done, write_complete(designs, out))
        }
        Ok(CheckVerdict::Refused { line, fault }) => {
            ended(Status::Refused, write_log_refusal(line, fault, out))
        }
        Err(StreamError::Refused(CheckError::BadDossier { line, fault })) => {
            ended(Status::BadInput, write_dossier_refusal(line, &fault, out))
        }
        Err(StreamError::Refused(CheckError::Matrix(error))) => answer_limit(error, out),
        Err(StreamError::Refused(CheckError::OutOfMemory)) => Status::OutOfMemory,
        Err(StreamError::ReadFault) => Status::ReadFault,
        Err(StreamError::TooLong) => Status::TooLong,
    }
}

// Answers with the limit that a problem is above.
fn answer_limit<O: Sink>(error: MatrixError, out: &mut O) -> Status
    requires { IsCountable error }
    ensures reply { RepliesOr (bad_input (limit_line (limit_of error))) (outgoing O.written O.faults out.old out.new) result }
    ensures writes { O.faults out.old ≤ O.faults out.new }
{
    match limited(error) {
        LimitError::Above(limit) => ended(Status::BadInput, write_limit(limit, out)),
        LimitError::OutOfMemory => Status::OutOfMemory,
    }
}
