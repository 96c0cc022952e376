// Chains of dossiers, held as a slice.

ghost use Rattle.std.specs.Prelude.{◌≡◌, ◌≤◌, ◌+◌, ◌<◌, [], ◌++◌, length, take, drop};
ghost use Rattle.df_check.specs.Judging.{verdict};
ghost use Rattle.df_check.specs.Checks.{GivesVerdict};

use crate::LogFault;
use crate::streams::check_stream;
use df_dossier::{DossierFault, StreamError};
use df_io::{Failed, MOST_BYTES, Source};
use df_matrix::MatrixError;
use std::alloc::Global;

/// What a chain of dossiers is answered.
#[derive(Clone, Copy, Debug, Eq, PartialEq)]
pub enum CheckVerdict {
    /// Every rule holds: the log is whole, and the designs are all that its problem asks for.
    Complete { designs: u64 },
    /// The first line that breaks a rule of the log or of chains, from 1, and the rule.
    Refused { line: u64, fault: LogFault },
}

/// Why an input isn't judged as a chain of dossiers.
#[derive(Clone, Copy, Debug, Eq, PartialEq)]
pub enum CheckError {
    /// The first line that breaks a rule is no line of a dossier where it stands: its number, from 1, or 0 for the end of the
    /// input. It is never `NotSpent` or `Trailing`.
    BadDossier { line: u64, fault: DossierFault },
    /// The problem of the first source passes this limit of orbit matrices. It is never `OutOfMemory`.
    Matrix(MatrixError),
    /// The allocator had no memory left.
    OutOfMemory,
}

/// The verdict on an input, line by line: the first line that breaks a rule, or how many designs there are where none does.
/// The input has at most `MOST_BYTES` bytes. `OutOfMemory` may come at any line.
pub fn check(alloc: Global, input: &[u8]) -> Result<CheckVerdict, CheckError>
    requires { length input.now ≤ MOST_BYTES }
    ensures { GivesVerdict (verdict input.now) result }
{
    let mut source = SliceSource {
        bytes: input,
        at: 0,
    };
    match check_stream(alloc, &mut source) {
        Ok(verdict) => Ok(verdict),
        Err(StreamError::Refused(error)) => Err(error),
        Err(StreamError::ReadFault | StreamError::TooLong) => unreachable!(),
    }
}

// A slice that is read without a fault. `at` is the place of the next byte.
#[derive(Drop)]
struct SliceSource<'a> {
    bytes: &'a [u8],
    at: usize,
    ghost within: { at ≤ length bytes.now },
}

impl<'a> Source for SliceSource<'a> {
    ghost use Rattle.std.specs.Prelude.{drop, Some};

    ghost left = { λ s. Some (drop s.at s.bytes.now) };

    ghost faults = { λ _. 0 };

    fn read(&mut self, room: &mut [u8]) -> Result<usize, Failed> {
        let count = copy_next(self.bytes, self.at, room);
        self.at += count;
        Ok(count)
    }
}

// Copies the next bytes to the front of `room`, and says how many.
#[tactic(auto, using(crate::proofs::CopiedFront::given))]
fn copy_next(bytes: &[u8], at: usize, room: &mut [u8]) -> usize
    requires { at ≤ length bytes.now }
    ensures bound { result ≤ length room.new }
    ensures within { at + result ≤ length bytes.now }
    ensures given { drop at bytes.now ≡ take result room.new ++ drop (at + result) bytes.now }
    ensures end { result ≡ 0 → 0 < length room.new → drop (at + result) bytes.now ≡ [] }
{
    let count = room.len().min(bytes.len() - at);
    room[..count].copy_from_slice(&bytes[at..at + count]);
    count
}
