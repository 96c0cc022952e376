// Chains of dossiers, read from a source line by line: the memory is that of the longest line, beside the first source and
// what its matrix and the checker take. After a line that breaks a rule the rest is read too, and kept nowhere: so an answer
// about the bytes speaks of all of them, and a read that fails or too many bytes are told in its place.
ghost use Rattle.std.specs.Prelude.{◌≡◌, ◌≤◌, IfErr, Ok, Err, Some, true, false};
ghost use Rattle.df_io.specs.Streams.{Reads, IsNextLine, IsNoLine, IsStream, new_stream};
ghost use Rattle.df_check.specs.Checks.{ReadsVerdict};
ghost use Rattle.df_check.specs.Inputs.{Judges, Opens, refusal_of, stopped_by};
ghost use Rattle.df_check.specs.declared.stop.Stop.TheVariants.{OutOfMemory as OutOfMemoryStop};
ghost use Rattle.df_check.specs.declared.streams.Halt.TheVariants.{Early, Stopped};

use crate::OutOfMemory;
use crate::chain::Chain;
use crate::checks::{CheckError, CheckVerdict};
use crate::opening::Opening;
use crate::stop::Stop;
use df_dossier::StreamError;
use df_io::{MOST_BYTES, ReadError, Reading, Source};
use std::alloc::Global;

/// Why judging halts before it comes to a verdict of a whole input.
pub enum Halt {
    /// The reading ended before its input did.
    Early(ReadError),
    /// What was read stops it.
    Stopped(Stop),
}

impl From<ReadError> for Halt {
    ghost from_gives = { λ e halt. halt ≡ Early e };

    fn from(error: ReadError) -> Self {
        Halt::Early(error)
    }
}

impl From<Stop> for Halt {
    ghost from_gives = { λ s halt. halt ≡ Stopped s };

    fn from(stop: Stop) -> Self {
        Halt::Stopped(stop)
    }
}

impl From<OutOfMemory> for Halt {
    ghost from_gives = { λ _ halt. halt ≡ Stopped OutOfMemoryStop };

    fn from(_: OutOfMemory) -> Self {
        Halt::Stopped(Stop::OutOfMemory)
    }
}

/// The verdict on all bytes that were left of a source, read line by line in whatever pieces they come, as `check` gives it
/// of them. They were all read, and are at most `MOST_BYTES`.
///
/// `Refused` and an `Ok` come only once all was read; a read that fails or too many bytes are told in their place, also
/// after the first line that breaks a rule. `ReadFault` comes only where the source's count of faults rises in this call, or
/// stands at its last value. `TooLong` comes exactly where `MOST_BYTES + 1` bytes came, and no more are read. `OutOfMemory`
/// in `Refused` may come at any line, and the rest isn't read then.
pub fn check_stream<S: Source>(
    alloc: Global,
    input: &mut S,
) -> Result<CheckVerdict, StreamError<CheckError>>
    ensures given { ReadsVerdict (S.left input.old) (S.left input.new) (S.faults input.old) (S.faults input.new) result }
    ensures later { S.faults input.old ≤ S.faults input.new }
{
    let mut reading = Reading::new(alloc, MOST_BYTES);
    let judged = judge(alloc, &mut reading, input);
    reading.keeps_limits();
    match judged {
        Ok(designs) => Ok(CheckVerdict::Complete { designs }),
        Err(Halt::Early(error)) => Err(stopped(error)),
        Err(Halt::Stopped(Stop::OutOfMemory)) => Err(StreamError::Refused(CheckError::OutOfMemory)),
        Err(Halt::Stopped(stop)) => {
            let rest = reading.finish(input);
            reading.keeps_limits();
            match rest {
                Ok(()) => refusal(stop),
                Err(error) => Err(stopped(error)),
            }
        }
    }
}

// The number of designs of a chain that is complete.
fn judge<S: Source>(alloc: Global, reading: &mut Reading, input: &mut S) -> Result<u64, Halt>
    requires { reading.old ≡ new_stream MOST_BYTES }
    ensures judged { Judges S.left S.faults input.old reading.new input.new result }
    ensures later { S.faults input.old ≤ S.faults input.new }
{
    let opening = open(alloc, reading, input)?;
    let matrix = opening.matrix(alloc, reading.number())?;
    let mut chain = Chain::new(alloc, &matrix, &opening.source, opening.judge)?;
    while next_line(reading, input)? {
        chain.line(alloc, reading.number(), reading.line())?;
    }
    Ok(chain.end()?)
}

// The lines up to the one after which the first source is whole.
fn open<S: Source>(alloc: Global, reading: &mut Reading, input: &mut S) -> Result<Opening, Halt>
    requires { reading.old ≡ new_stream MOST_BYTES }
    ensures opened { Opens S.left S.faults input.old reading.new input.new result }
    ensures later { S.faults input.old ≤ S.faults input.new }
{
    let mut opening = Opening::new(alloc);
    while !opening.is_whole() {
        if !next_line(reading, input)? {
            return Err(Halt::Stopped(opening.end()));
        }
        opening = opening.line(alloc, reading.number(), reading.line())?;
    }
    Ok(opening)
}

// Reads the next line, where one is left, as `Reading::next_line` does, and the reading keeps its limits.
fn next_line<S: Source>(reading: &mut Reading, input: &mut S) -> Result<bool, ReadError>
    ensures reads { Reads S.left S.faults reading.old reading.new input.old input.new }
    ensures keeps { IsStream reading.new }
    ensures some { result ≡ Ok true
        → IsNextLine reading.old reading.new (S.left input.old) (S.left input.new) }
    ensures none { result ≡ Ok false
        → IsNoLine reading.old reading.new (S.left input.old) (S.left input.new) }
    ensures refused { IfErr result (λ e. reading.new.ended ≡ Some (Err e)) }
{
    let read = reading.next_line(input);
    reading.keeps_limits();
    read
}

// What is answered where judging stopped, and the rest was read.
fn refusal(stop: Stop) -> Result<CheckVerdict, StreamError<CheckError>>
    ensures { result ≡ refusal_of stop }
{
    match stop {
        Stop::BadLine { line, fault } => {
            Err(StreamError::Refused(CheckError::BadDossier { line, fault }))
        }
        Stop::BadLog { line, fault } => Ok(CheckVerdict::Refused { line, fault }),
        Stop::Above { error, .. } => Err(StreamError::Refused(CheckError::Matrix(error))),
        Stop::OutOfMemory => Err(StreamError::Refused(CheckError::OutOfMemory)),
    }
}

// What is answered where a reading ended before its input did.
fn stopped(error: ReadError) -> StreamError<CheckError>
    ensures { result ≡ stopped_by error }
{
    match error {
        ReadError::ReadFault => StreamError::ReadFault,
        ReadError::TooLong => StreamError::TooLong,
        ReadError::OutOfMemory => StreamError::Refused(CheckError::OutOfMemory),
    }
}
