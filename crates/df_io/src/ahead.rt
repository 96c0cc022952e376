// The bytes that were taken from a source and not yet handed out.
ghost use Rattle.std.specs.Prelude.{◌≡◌, ◌≤◌, ◌<◌, [], ◌∷◌, length, drop, MatchResult, IfOk, OnErr, true, false};
ghost use Rattle.std.specs.Io.KnownBytes.{Consumes, IsAtEnd, Keeps};
ghost use Rattle.df_io.specs.Causes.{HasCause};
ghost use Rattle.df_io.specs.Joined.{Moves};

use crate::OutOfMemory;
use crate::traits::{Failed, Source};
use memchr::memchr;
use std::marker::Model;

/// The most bytes that are taken from a source at once.
pub const PIECE: usize = 4096;

/// At most a piece of bytes, in order.
#[derive(Drop)]
pub struct Ahead {
    piece: [u8; PIECE],
    start: usize,
    end: usize,
}

impl Model for Ahead {
    ghost use Rattle.std.specs.Prelude.{ℕ, ◌≤◌, List};
    ghost use Rattle.std.specs.List.{slice_range};
    ghost use Rattle.df_io.specs.declared.ahead.TheConstants.{PIECE};

    ghost Value = { List ℕ };

    ghost view = { λ a. slice_range a.piece a.start a.end };

    ghost invariant = { λ a. (a.start ≤ a.end) × (a.end ≤ PIECE) };
}

impl Ahead {
    /// No bytes.
    pub fn new() -> Ahead
        ensures { result ≡ [] }
    {
        Ahead {
            piece: [0; PIECE],
            start: 0,
            end: 0,
        }
    }

    /// The bytes.
    pub fn bytes(&self) -> &[u8]
        ensures bytes { result.now ≡ self.now }
        ensures few { length result.now ≤ PIECE }
    {
        &self.piece[self.start..self.end]
    }

    /// Drops the first bytes.
    pub fn pass(&mut self, count: usize)
        requires { count ≤ length self.old }
        ensures { self.new ≡ drop count self.old }
    {
        self.start += count;
    }

    /// Drops all bytes.
    pub fn clear(&mut self)
        ensures { self.new ≡ [] }
    {
        self.start = self.end;
    }

    /// Moves the bytes before the first line feed to the end of the line, and drops the line feed: `true`. Moves all
    /// bytes where no line feed is among them: `false`.
    pub fn move_line(&mut self, line: &mut Vec<u8>) -> Result<bool, OutOfMemory>
        ensures found { result ≡ Ok true → Moves (10 ∷ []) self.old self.new line.old.items line.new.items }
        ensures all { result ≡ Ok false → Moves [] self.old self.new line.old.items line.new.items }
        ensures empty { result ≡ Ok false → self.new ≡ [] }
        ensures kept { OnErr result (self.new ≡ self.old) }
        ensures line_kept { OnErr result (line.new.items ≡ line.old.items) }
    {
        let bytes = self.bytes();
        match memchr(b'\n', bytes) {
            Some(place) => {
                line.extend_from_slice(&bytes[..place])?;
                self.pass(place + 1);
                Ok(true)
            }
            None => {
                line.extend_from_slice(bytes)?;
                self.clear();
                Ok(false)
            }
        }
    }

    /// Takes the next bytes of the source in the place of those here, at most `most` of them, and says how many.
    pub fn fill<S: Source>(&mut self, input: &mut S, most: usize) -> Result<usize, Failed>
        requires some { 0 < most }
        requires few { most ≤ PIECE }
        ensures bytes { MatchResult result
            (λ n. Consumes (S.left input.old) (S.left input.new) self.new × (length self.new ≡ n))
            (λ _. Keeps (S.left input.old) (S.left input.new) × (self.new ≡ [])) }
        ensures few { length self.new ≤ most }
        ensures end { IfOk result (λ n. n ≡ 0 → IsAtEnd (S.left input.new)) }
        ensures cause { HasCause (S.faults input.old) (S.faults input.new) result }
    {
        self.start = 0;
        self.end = 0;
        let count = input.read(&mut self.piece[..most])?;
        self.end = count;
        Ok(count)
    }
}
