// A text whose pieces are gathered in a buffer on the way to a sink: the buffer is written where a
// further piece might not fit, so that a sink is called once for many lines.
ghost use Rattle.std.specs.Prelude.{◌≡◌, ◌≤◌, ◌+◌, [], OnOk};
ghost use Rattle.arrayvec.specs.ArrayVec.{array_vec_len};
ghost use Rattle.df_tell.specs.Gathered.{Gathers};

use df_io::{LineBuf, Sink, WriteFault, write_all};

/// The most bytes of a piece that is gathered.
pub(crate) const PIECE_BYTES: usize = 512;

/// Writes what is gathered, if `PIECE_BYTES` bytes more might not fit.
pub(crate) fn make_room<K: Sink>(gathered: &mut LineBuf, out: &mut K) -> Result<(), WriteFault>
    ensures same { Gathers K.written K.faults out.old out.new
        gathered.old.items gathered.new.items [] result }
    ensures room { OnOk result (array_vec_len gathered.new + PIECE_BYTES ≤ 1024) }
{
    if gathered.remaining_capacity() < PIECE_BYTES {
        write_gathered(gathered, out)
    } else {
        Ok(())
    }
}

/// Writes what is gathered.
pub(crate) fn write_gathered<K: Sink>(gathered: &mut LineBuf, out: &mut K) -> Result<(), WriteFault>
    ensures same { Gathers K.written K.faults out.old out.new
        gathered.old.items gathered.new.items [] result }
    ensures empty { OnOk result (gathered.new.items ≡ []) }
{
    write_all(out, gathered.as_slice())?;
    gathered.clear();
    Ok(())
}
