// Dossiers that ended spent, read from a source line by line: the memory is that of the longest line, beside the source
// lines and what `Spent` holds. After a line that breaks a rule the rest is read too, and kept nowhere: so an answer
// about the bytes speaks of all of them, and a read that fails or too many bytes are told in its place.
ghost use Rattle.std.specs.Prelude.{◌≡◌, ◌≤◌};
ghost use Rattle.df_dossier.specs.SpentStreams.{ReadsSpent, stopped as stop_of};

use crate::spent::{Spent, SpentError};
use crate::stages::Stage;
use df_io::{MOST_BYTES, ReadError, Reading, Source};
use std::alloc::Global;

/// Why a source isn't read as what a call reads.
#[derive(Clone, Copy, Debug, PartialEq, Eq)]
pub enum StreamError<E> {
    /// A read failed.
    ReadFault,
    /// More than `MOST_BYTES` bytes came.
    TooLong,
    /// What is wrong with the bytes that came, or out of memory.
    Refused(E),
}

/// The problem, the path and the rules of a source that is one dossier and ended spent, as `read_spent` gives them of
/// the bytes that were left, in whatever pieces these come. They were all read, and are at most `MOST_BYTES`.
///
/// `Refused` tells the first line that breaks a rule, and the rule, and comes only once all was read; a read that fails
/// or too many bytes after that line are told in its place. `ReadFault` comes only where the source's count of faults
/// rises in this call, or stands at its last value. `TooLong` comes exactly where `MOST_BYTES + 1` bytes came, and no
/// more are read. `OutOfMemory` in `Refused` may come at any line.
pub fn read_spent_stream<S: Source>(
    alloc: Global,
    input: &mut S,
) -> Result<Spent, StreamError<SpentError>>
    ensures given { ReadsSpent (S.left input.old) (S.left input.new) (S.faults input.old) (S.faults input.new) result }
    ensures later { S.faults input.old ≤ S.faults input.new }
{
    let mut stage = Stage::Head;
    let mut reading = Reading::new(alloc, MOST_BYTES);
    loop {
        let read = reading.next_line(input);
        reading.keeps_limits();
        match read {
            Ok(true) => {}
            Ok(false) => {
                return match stage.end() {
                    Ok(spent) => Ok(spent),
                    Err(error) => Err(StreamError::Refused(error)),
                };
            }
            Err(error) => return Err(stopped(error)),
        }
        match stage.line(alloc, reading.number(), reading.line()) {
            Ok(next) => stage = next,
            Err(SpentError::OutOfMemory) => {
                return Err(StreamError::Refused(SpentError::OutOfMemory));
            }
            Err(SpentError::Refused { line, fault }) => {
                let rest = reading.finish(input);
                reading.keeps_limits();
                return match rest {
                    Ok(()) => Err(StreamError::Refused(SpentError::Refused { line, fault })),
                    Err(error) => Err(stopped(error)),
                };
            }
        }
    }
}

// What is answered where a reading ends before its input does.
fn stopped(error: ReadError) -> StreamError<SpentError>
    ensures { result ≡ stop_of error }
{
    match error {
        ReadError::ReadFault => StreamError::ReadFault,
        ReadError::TooLong => StreamError::TooLong,
        ReadError::OutOfMemory => StreamError::Refused(SpentError::OutOfMemory),
    }
}
