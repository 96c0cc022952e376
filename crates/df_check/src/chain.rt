// A chain of dossiers, from the line on after which its first source is whole.
ghost use Rattle.std.specs.Prelude.{◌≡◌, IfOk};
ghost use Rattle.df_check.specs.Judging.{Runs, running_on, after_line, at_end};
ghost use Rattle.df_check.specs.Stops.{Gives, Moves};

use crate::OutOfMemory;
use crate::running::Running;
use crate::stop::Stop;
use df_dossier::{LineJudge, Piece, SourceText};
use df_matrix::OrbitMatrix;
use std::alloc::Global;
use std::marker::Model;

/// What may come next, and what is held of the lines so far.
#[derive(Drop)]
pub struct Chain<'m> {
    judge: LineJudge,
    running: Running<'m>,
}

impl<'m> Model for Chain<'m> {
    ghost use Rattle.df_check.specs.Judging.{Standing, Runs};

    ghost Value = { Standing };

    ghost view = { λ c. record { awaits = c.judge.awaits; held = Runs c.running } };
}

impl<'m> Chain<'m> {
    /// The first source is whole, and states the problem of the matrix; the judge has come to the line behind it.
    pub fn new(
        alloc: Global,
        matrix: &'m OrbitMatrix,
        source: &'m SourceText,
        judge: LineJudge,
    ) -> Result<Chain<'m>, OutOfMemory>
        ensures { IfOk result (λ c. c ≡ record { awaits = judge.awaits; held = Runs (running_on source.now matrix.now) }) }
    {
        let running = Running::new(alloc, matrix, source)?;
        Ok(Chain { judge, running })
    }

    /// Takes the line of this number.
    pub fn line(&mut self, alloc: Global, number: u64, line: &[u8]) -> Result<(), Stop>
        ensures { Moves (after_line self.old number line.now) self.new result }
    {
        match self.judge.line(line) {
            Some(piece) => self.running.piece(alloc, number, line, piece),
            None => Ok(()),
        }
    }

    /// The input ends: how many designs there were.
    pub fn end(&self) -> Result<u64, Stop>
        ensures { Gives (at_end self.now) result }
    {
        let mut judge = self.judge;
        match judge.end() {
            Piece::Bad(fault) => Err(Stop::BadLine { line: 0, fault }),
            _ => self.running.end(),
        }
    }
}
