// A reading line by line, of a source that is handed to each call.
ghost use Rattle.std.specs.Prelude.{◌≡◌, ◌≤◌, [], ◌∷◌, ◌++◌, IfErr, OnOk, IsErrOf, IsSome, Ok, Err, Some, None, true, false};
ghost use Rattle.std.specs.Io.KnownBytes.{IsAtEnd};
ghost use Rattle.df_io.specs.Streams.{Reads, IsNextLine, IsNoLine, IsStream, new_stream};
ghost use Rattle.df_io.specs.LineSteps.{Finds, Fills};

use crate::ahead::{Ahead, PIECE};
use crate::bytes::{MOST_BYTES, ReadError};
use crate::traits::{Failed, Source};
use std::alloc::{AllocError, Global};
use std::marker::Model;

/// A reading of a source line by line, as `LineSource` has it, with the source handed to each call: what was taken of it
/// and not yet handed out, the line that was, and how the reading ended, once it has.
///
/// It is for callers whose own clauses speak of the source, which a value that holds a `&mut` of it keeps from them.
/// Each call is to have the same source, of which nothing else reads.
#[derive(Drop)]
pub struct Reading {
    ahead: Ahead,
    line: Vec<u8>,
    number: u64,
    taken: u64,
    limit: u64,
    ended: Option<Result<(), ReadError>>,
}

impl Model for Reading {
    ghost use Rattle.df_io.specs.Streams.{Stream, IsStream};

    ghost Value = { Stream };

    ghost view = { λ r. record {
      ahead = r.ahead;
      line = r.line.items;
      number = r.number;
      taken = r.taken;
      limit = r.limit;
      ended = r.ended;
    } };

    ghost invariant = { λ r. IsStream record {
      ahead = r.ahead;
      line = r.line.items;
      number = r.number;
      taken = r.taken;
      limit = r.limit;
      ended = r.ended;
    } };
}

impl Reading {
    /// Nothing is read yet, and no memory taken. At most `limit` bytes may come, and `limit` is at most `MOST_BYTES`.
    pub fn new(alloc: Global, limit: u64) -> Reading
        requires { limit ≤ MOST_BYTES }
        ensures { result ≡ new_stream limit }
    {
        Reading {
            ahead: Ahead::new(),
            line: Vec::new(alloc),
            number: 0,
            taken: 0,
            limit,
            ended: None,
        }
    }

    /// A law of each reading: what was taken of the source keeps to the limit, and to `PIECE` bytes ahead of the lines.
    pub fn keeps_limits(&self)
        ensures { IsStream self.now }
    {
        let _number = self.number;
    }

    /// Reads the next line, where one is left, as `LineSource::next_line` does.
    pub fn next_line<S: Source>(&mut self, input: &mut S) -> Result<bool, ReadError>
        ensures reads { Reads S.left S.faults self.old self.new input.old input.new }
        ensures some { result ≡ Ok true
            → IsNextLine self.old self.new (S.left input.old) (S.left input.new) }
        ensures none { result ≡ Ok false
            → IsNoLine self.old self.new (S.left input.old) (S.left input.new) }
        ensures refused { IfErr result (λ e. self.new.ended ≡ Some (Err e)) }
    {
        self.line.clear();
        self.find_line(input);
        if let Some(end) = self.ended {
            if let Err(error) = end {
                self.line.clear();
                return Err(error);
            }
            if self.line.is_empty() {
                return Ok(false);
            }
        }
        self.number += 1;
        Ok(true)
    }

    // Adds the bytes before the next line feed to the line, and drops the line feed. Where none comes, the reading
    // ends.
    fn find_line<S: Source>(&mut self, input: &mut S)
        requires { self.old.line ≡ [] }
        ensures { Finds S.left S.faults self.old self.new input.old input.new }
    {
        while self.ended.is_none() {
            match self.ahead.move_line(&mut self.line) {
                Ok(true) => return,
                Ok(false) => self.refill(input),
                Err(AllocError) => self.ended = Some(Err(ReadError::OutOfMemory)),
            }
        }
    }

    // Takes the next bytes of the source, where none are ahead. Where none come, the reading ends.
    fn refill<S: Source>(&mut self, input: &mut S)
        requires not_ended { self.old.ended ≡ None }
        requires empty { self.old.ahead ≡ [] }
        ensures { Fills S.left S.faults self.old self.new input.old input.new }
    {
        let room = (self.limit + 1 - self.taken).min(PIECE as u64) as usize;
        match self.ahead.fill(input, room) {
            Ok(0) => self.ended = Some(Ok(())),
            Ok(count) => {
                self.taken += count as u64;
                if self.taken > self.limit {
                    self.ended = Some(Err(ReadError::TooLong));
                }
            }
            Err(Failed) => self.ended = Some(Err(ReadError::ReadFault)),
        }
    }

    /// The line that was read last.
    pub fn line(&self) -> &[u8]
        ensures { result.now ≡ self.now.line }
    {
        &self.line
    }

    /// Its number, and 0 before the first.
    pub fn number(&self) -> u64
        ensures { result ≡ self.now.number }
    {
        self.number
    }

    /// Reads the rest, and keeps none of it, as `LineSource::finish` does.
    pub fn finish<S: Source>(&mut self, input: &mut S) -> Result<(), ReadError>
        ensures reads { Reads S.left S.faults self.old self.new input.old input.new }
        ensures ended { self.new.ended ≡ Some result }
        ensures end { OnOk result (self.old.ended ≡ None → IsAtEnd (S.left input.new)) }
        ensures memory { IsErrOf result ReadError.OutOfMemory → IsSome self.old.ended }
    {
        loop {
            if let Some(end) = self.ended {
                return end;
            }
            self.ahead.clear();
            self.refill(input);
        }
    }
}
