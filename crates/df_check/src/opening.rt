// The first dossier of a chain, up to the line after which its source is whole.
ghost use Rattle.std.specs.Prelude.{◌≡◌, ◌+◌, length, IfOk, IfErr, true, false};
ghost use Rattle.df_io.specs.Joined.{Lacks, is_line_feed};
ghost use Rattle.df_dossier.specs.Judging.{awaits_from};
ghost use Rattle.df_check.specs.Judging.{nothing_read, after_line, at_end};
ghost use Rattle.df_check.specs.Openings.{opening_of, standing_of, standing_with, with_source_line, IsPlaced, FitsBehind, GoesOn, States, Limits};
ghost use Rattle.df_check.specs.Stops.{Stops};
ghost use Rattle.df_check.specs.declared.stop.Stop.TheVariants.{OutOfMemory as OutOfMemoryStop};

use crate::stop::Stop;
use df_dossier::{DossierFault, LineJudge, Piece, SourceText};
use df_lang::{ParseError, Problem};
use df_matrix::{MatrixError, OrbitMatrix, build};
use std::alloc::Global;

/// What is held of an input until its first source is whole.
#[derive(Drop)]
pub struct Opening {
    /// What may come next.
    pub judge: LineJudge,
    /// The number of the line with the count of source lines, and 0 before it.
    pub at: u64,
    /// The source lines so far.
    pub source: SourceText,
}

impl Opening {
    /// Nothing was read.
    pub fn new(alloc: Global) -> Opening
        ensures { standing_of result ≡ nothing_read }
    {
        Opening {
            judge: LineJudge::new(),
            at: 0,
            source: SourceText::new(alloc),
        }
    }

    /// Takes the line of this number, where the source isn't whole.
    pub fn line(self, alloc: Global, number: u64, line: &[u8]) -> Result<Opening, Stop>
        requires plain { Lacks is_line_feed line.now }
        requires unfinished { awaits_from self.judge.awaits ≡ false }
        requires place { IsPlaced self number }
        ensures goes { GoesOn (after_line (standing_of self) number line.now) number result }
        ensures place { IfOk result (λ o. IsPlaced o (number + 1)) }
    {
        let Opening {
            mut judge,
            at,
            source,
        } = self;
        match judge.line(line) {
            Some(piece) => Opening { judge, at, source }.piece(alloc, number, line, piece),
            None => Ok(Opening { judge, at, source }),
        }
    }

    // Takes the line of this number, which the judge has come behind, and which is this piece.
    fn piece(self, alloc: Global, number: u64, line: &[u8], piece: Piece) -> Result<Opening, Stop>
        requires plain { Lacks is_line_feed line.now }
        requires place { FitsBehind piece self.judge.awaits self.at (length self.source) number }
        ensures goes { GoesOn (standing_with self number line.now piece) number result }
        ensures place { IfOk result (λ o. IsPlaced o (number + 1)) }
    {
        match piece {
            Piece::SourceCount(_) => Ok(Opening {
                judge: self.judge,
                at: number,
                source: SourceText::new(alloc),
            }),
            Piece::SourceLine => self.with_line(line),
            Piece::Bad(fault) => Err(Stop::BadLine {
                line: number,
                fault,
            }),
            Piece::Head { .. }
            | Piece::RunFrom
            | Piece::Entry(_)
            | Piece::Design
            | Piece::End { .. }
            | Piece::Done => Ok(self),
        }
    }

    // One source line more.
    fn with_line(self, line: &[u8]) -> Result<Opening, Stop>
        requires { Lacks is_line_feed line.now }
        ensures more { IfOk result (λ o. (opening_of o ≡ with_source_line (opening_of self) line.now) × (o.judge.awaits ≡ self.judge.awaits)) }
        ensures stop { IfErr result (λ s. s ≡ OutOfMemoryStop) }
    {
        let Opening { judge, at, source } = self;
        match source.with_line(line) {
            Ok(source) => Ok(Opening { judge, at, source }),
            Err(_) => Err(Stop::OutOfMemory),
        }
    }

    /// Whether the source is whole.
    pub fn is_whole(&self) -> bool
        ensures { result ≡ awaits_from self.now.judge.awaits }
    {
        self.judge.is_source_whole()
    }

    /// The input ends where the source isn't whole.
    pub fn end(self) -> Stop
        ensures { Stops (at_end (standing_of self)) result }
    {
        let mut judge = self.judge;
        match judge.end() {
            Piece::Bad(fault) => Stop::BadLine { line: 0, fault },
            _ => Stop::BadLine {
                line: 0,
                fault: DossierFault::BadHead,
            },
        }
    }

    /// The matrix of the problem that the source states, which ends with the line of this number.
    pub fn matrix(&self, alloc: Global, number: u64) -> Result<OrbitMatrix, Stop>
        requires whole { awaits_from self.now.judge.awaits ≡ true }
        requires place { IsPlaced self.now (number + 1) }
        ensures { States self.now number result }
    {
        match self.source.parse(alloc) {
            Ok(problem) => matrix_of(alloc, number, &problem),
            Err(ParseError::Refused(error)) => Err(Stop::BadLine {
                line: self.at + error.line,
                fault: DossierFault::BadSource(error.fault),
            }),
            Err(ParseError::OutOfMemory) => Err(Stop::OutOfMemory),
        }
    }
}

// The matrix of a problem whose source ends with the line of this number.
fn matrix_of(alloc: Global, number: u64, problem: &Problem) -> Result<OrbitMatrix, Stop>
    ensures { Limits problem.now number result }
{
    match build(alloc, problem) {
        Ok(matrix) => Ok(matrix),
        Err(MatrixError::OutOfMemory) => Err(Stop::OutOfMemory),
        Err(error) => Err(Stop::Above {
            line: number,
            error,
        }),
    }
}
