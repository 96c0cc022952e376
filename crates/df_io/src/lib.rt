//! Where bytes come from and go to, and what a text of bytes says: sources and sinks with their counts of faults,
//! whole inputs and outputs, lines, tokens and decimal numbers.
//! It stands on `arrayvec`, for buffers of a fixed size, and on `memchr`, for the search for line feeds.
//! The crates above may use each name below: a clause sees a source as the bytes it has left, a sink as the bytes it
//! has taken, and a text as the lists of `specs/Lines` and `specs/Number`.
//! Laws for the rooms above: proofs/Joining, proofs/NumbersBack, proofs/StreamLaws, proofs/Writing.
#![tactic(auto)]

mod ahead;
mod bytes;
mod giving;
mod laws;
mod line_source;
mod lines;
mod mem;
mod numbers;
mod reading;
mod std_streams;
mod sure;
mod texts;
mod tokens;
mod traits;

pub use ahead::PIECE;
pub use bytes::{MOST_BYTES, ReadError, WriteFault, read_all, write_all};
pub use laws::{lines_are_read_back, numbers_are_read_back, tokens_are_read_back};
pub use line_source::LineSource;
pub use lines::{Line, Lines};
pub use mem::{MemSink, MemSource};
pub use numbers::{NumberRead, read_number};
pub use reading::Reading;
pub use std_streams::{StdSink, StdSource};
pub use sure::{SureSink, SureSource};
pub use texts::{LineBuf, put_number, put_signed, put_text};
pub use tokens::{Span, Tokens};
pub use traits::{Failed, Sink, Source};

/// The allocator had no memory left.
pub type OutOfMemory = std::alloc::AllocError;

#[cfg(test)]
mod tests;
