// A source that is read line by line. Bytes are taken in pieces of at most 4,096; each is looked at once, for the line
// feeds, and copied once, to its line. So the memory is that of one piece and of the longest line.
ghost use Rattle.df_io.specs.Streams.{Stream};

use crate::OutOfMemory;
use crate::bytes::{MOST_BYTES, ReadError};
use crate::reading::Reading;
use crate::traits::Source;
use std::alloc::Global;

/// The lines of a source, one at a time, within a limit on its bytes.
///
/// A line is the bytes up to a line feed, which doesn't belong to it. Bytes after the last line feed are a line too where
/// there are any. Clauses see the reading as a `Stream` of `specs/Streams`, beside the source itself.
#[derive(Drop)]
pub struct LineSource<'s, S: Source> {
    pub input: &'s mut S,
    pub reading: Reading,
}

impl<'s, S: Source> LineSource<'s, S> {
    ghost use Rattle.std.specs.Prelude.{◌≡◌, ◌≤◌, IsOk, IfOk, IfErr, OnOk, IsErrOf, IsSome, Ok, Err, Some, None, true, false};
    ghost use Rattle.std.specs.Io.KnownBytes.{IsAtEnd};
    ghost use Rattle.df_io.specs.Streams.{Reads, IsNextLine, IsNoLine, IsStream, new_stream};

    /// All lines of the input, from its first byte on, of which at most `limit` bytes may come. `limit` is at most
    /// `MOST_BYTES`. It reads nothing and takes no memory yet, so it is `Ok`.
    pub fn new(
        alloc: Global,
        input: &'s mut S,
        limit: u64,
    ) -> Result<LineSource<'s, S>, OutOfMemory>
        requires { limit ≤ MOST_BYTES }
        ensures made { IsOk result }
        ensures source { IfOk result (λ lines. lines.input.ghost_name ≡ input.entry.ghost_name) }
        ensures unread { IfOk result (λ lines. lines.input.now ≡ input.old) }
        ensures stream { IfOk result (λ lines. lines.reading ≡ new_stream limit) }
    {
        Ok(LineSource {
            input,
            reading: Reading::new(alloc, limit),
        })
    }

    /// Reads the next line, which `line` then lends: `true`. `false` exactly where no line is left and the input was
    /// read to its end, then and at each later call.
    ///
    /// At most `PIECE` bytes past the line and its line feed are taken from the source. `ReadFault` comes only where
    /// the source's count of faults rises in this call, or stands at its last value. `TooLong` comes exactly where
    /// `limit + 1` bytes came, and no more are read. `OutOfMemory` may come at any line. Each later call answers the
    /// same refusal and reads nothing.
    pub fn next_line(&mut self) -> Result<bool, ReadError>
        ensures source { self.new.input.ghost_name ≡ self.old.input.ghost_name }
        ensures reads { Reads S.left S.faults self.old.reading self.new.reading
            self.old.input.now self.new.input.now }
        ensures some { result ≡ Ok true → IsNextLine self.old.reading self.new.reading
            (S.left self.old.input.now) (S.left self.new.input.now) }
        ensures none { result ≡ Ok false → IsNoLine self.old.reading self.new.reading
            (S.left self.old.input.now) (S.left self.new.input.now) }
        ensures refused { IfErr result (λ e. self.new.reading.ended ≡ Some (Err e)) }
    {
        self.reading.next_line(self.input)
    }

    /// A law of each reading: what was taken of the source keeps to the limit, and to `PIECE` bytes ahead of the lines.
    /// It does nothing.
    pub fn keeps_limits(&self)
        ensures { IsStream self.now.reading }
    {
        self.reading.keeps_limits();
    }

    /// The bytes of the line that `next_line` read last.
    pub fn line(&self) -> &[u8]
        ensures { result.now ≡ self.now.reading.line }
    {
        self.reading.line()
    }

    /// The number of the line that `next_line` read last, from 1; 0 before the first.
    pub fn number(&self) -> u64
        ensures { result ≡ self.now.reading.number }
    {
        self.reading.number()
    }

    /// Reads the rest of the input and keeps none of it. `Ok` says that it was read to its end.
    ///
    /// `ReadFault` and `TooLong` come as in `next_line`, `OutOfMemory` only where an earlier call answered it. Each
    /// later call answers the same and reads nothing.
    pub fn finish(&mut self) -> Result<(), ReadError>
        ensures source { self.new.input.ghost_name ≡ self.old.input.ghost_name }
        ensures reads { Reads S.left S.faults self.old.reading self.new.reading
            self.old.input.now self.new.input.now }
        ensures ended { self.new.reading.ended ≡ Some result }
        ensures end { OnOk result (self.old.reading.ended ≡ None
            → IsAtEnd (S.left self.new.input.now)) }
        ensures memory { IsErrOf result ReadError.OutOfMemory
            → IsSome self.old.reading.ended }
    {
        self.reading.finish(self.input)
    }
}
