// All of a source, and all of a text.
ghost use Rattle.std.specs.Prelude.{◌≡◌, ◌≤◌, ◌+◌, ◌^◌, ◌<◌, List, ℕ, length, take, IfOk, OnOk, IsErrOf};
ghost use Rattle.std.specs.Vec.{vec_len};
ghost use Rattle.std.specs.Io.KnownBytes.{Consumes, IsAtEnd};
ghost use Rattle.df_io.specs.Causes.{Rose, ConsumesAtMost};
ghost use Rattle.df_io.specs.Writing.{Writes};
ghost use Rattle.df_io.specs.declared.bytes.ReadError.TheVariants.{OutOfMemory};

use crate::traits::{Failed, Sink, Source};
use std::alloc::{AllocError, Global};

/// Why an input wasn't read to its end.
#[derive(Clone, Copy, Debug, PartialEq, Eq)]
pub enum ReadError {
    /// A read failed.
    ReadFault,
    /// More bytes came than the limit allows.
    TooLong,
    /// There was no memory for the bytes.
    OutOfMemory,
}

impl From<AllocError> for ReadError {
    ghost from_gives = { λ _ e. e ≡ OutOfMemory };

    fn from(_: AllocError) -> Self {
        ReadError::OutOfMemory
    }
}

/// The largest limit on an input that may be asked for: 4,294,967,296 bytes.
pub const MOST_BYTES: u64 = 4_294_967_296;

/// All bytes that are left of the input, which is read to its end. They are at most `limit`, and `limit` is at most
/// `MOST_BYTES`.
///
/// `ReadFault` comes only where the source's count of faults rises in this call, or stands at its last value.
/// `TooLong` comes exactly where `limit + 1` bytes came, and no more are read. `OutOfMemory` may come at any read.
pub fn read_all<S: Source>(alloc: Global, input: &mut S, limit: u64) -> Result<Vec<u8>, ReadError>
    requires { limit ≤ MOST_BYTES }
    ensures all { IfOk result (λ bytes. Consumes (S.left input.old) (S.left input.new) bytes.items) }
    ensures end { OnOk result (IsAtEnd (S.left input.new)) }
    ensures fits { IfOk result (λ bytes. vec_len bytes ≤ limit) }
    ensures too_long { IsErrOf result ReadError.TooLong
        → (bytes : List ℕ) × Consumes (S.left input.old) (S.left input.new) bytes × (length bytes ≡ limit + 1) }
    ensures before { IsErrOf result ReadError.ReadFault
        → ConsumesAtMost (S.left input.old) (S.left input.new) limit }
    ensures taken { ConsumesAtMost (S.left input.old) (S.left input.new) (limit + 1) }
    ensures fault { IsErrOf result ReadError.ReadFault
        → Rose (S.faults input.old) (S.faults input.new) }
    ensures later { S.faults input.old ≤ S.faults input.new }
{
    let mut bytes = Vec::new(alloc);
    let mut buffer = [0u8; 4096];
    while bytes.len() as u64 <= limit {
        let room = (limit + 1 - bytes.len() as u64).min(4096) as usize;
        match input.read(&mut buffer[..room]) {
            Ok(0) => return Ok(bytes),
            Ok(count) => bytes.extend_from_slice(&buffer[..count])?,
            Err(Failed) => return Err(ReadError::ReadFault),
        }
    }
    Err(ReadError::TooLong)
}

/// A write failed. A proper prefix of the bytes was written before it, which may be empty.
#[derive(Clone, Copy, Debug, PartialEq, Eq)]
pub struct WriteFault;

/// Writes all of the bytes; or a proper prefix of them, where the sink fails.
///
/// `WriteFault` comes only where the sink's count of faults rises in this call, or stands at its last value.
pub fn write_all<K: Sink>(out: &mut K, bytes: &[u8]) -> Result<(), WriteFault>
    ensures { Writes K.written K.faults out.old out.new bytes.now result }
{
    let mut at = 0;
    while at < bytes.len() {
        match out.write(&bytes[at..]) {
            Ok(count) => at += count,
            Err(Failed) => return Err(WriteFault),
        }
    }
    Ok(())
}
