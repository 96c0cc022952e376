// A spent dossier read in every way: as a slice, and from sources that give it in pieces.
ghost use Rattle.std.specs.Prelude.{◌≤◌};

use super::*;
use arrayvec::ArrayVec;
use df_io::MemSource;
use std::alloc::Global;

// What was read: the length of the path, the line of the fault and the fault, or why nothing is known of the bytes; and
// `Differs` where one way says something else than another.
#[derive(Clone, Copy, Debug, PartialEq, Eq)]
pub enum Answer {
    Path(u32),
    Fault(u64, DossierFault),
    NoMemory,
    ReadFault,
    TooLong,
    Differs,
}

fn told(read: Result<Spent, SpentError>) -> Answer {
    match read {
        Ok(spent) => Answer::Path(spent.path.length()),
        Err(SpentError::Refused { line, fault }) => Answer::Fault(line, fault),
        Err(SpentError::OutOfMemory) => Answer::NoMemory,
    }
}

/// What the source says, read to its end or to a read that fails.
pub fn from_source(alloc: Global, source: &mut MemSource) -> Answer {
    match read_spent_stream(alloc, source) {
        Ok(spent) => told(Ok(spent)),
        Err(StreamError::Refused(error)) => told(Err(error)),
        Err(StreamError::ReadFault) => Answer::ReadFault,
        Err(StreamError::TooLong) => Answer::TooLong,
    }
}

/// A source of the text in pieces of this many bytes, of which these reads fail, the first 8 of them. `None`: no memory.
pub fn in_pieces(alloc: Global, text: &[u8], piece: usize, fails: &[u64]) -> Option<MemSource>
    requires { 1 ≤ piece }
{
    let mut bytes = Vec::new(alloc);
    bytes.extend_from_slice(text).ok()?;
    let mut calls = ArrayVec::new();
    for call in fails {
        if calls.len() < 8 {
            calls.push(*call);
        }
    }
    Some(MemSource::new(bytes, piece, calls))
}

/// What the text says in every way; `Differs` where two ways differ, and `TooLong` above 10,000,000 bytes.
pub fn anyhow(alloc: Global, text: &[u8]) -> Answer {
    if text.len() > 10_000_000 {
        return Answer::TooLong;
    }
    let answer = told(read_spent(alloc, text));
    for piece in [1, 7, 4096] {
        let Some(mut source) = in_pieces(alloc, text, piece, &[]) else {
            return Answer::NoMemory;
        };
        if from_source(alloc, &mut source) != answer || source.at != text.len() {
            return Answer::Differs;
        }
    }
    answer
}
