// What is printed of a path at which a search can't go on.
ghost use Rattle.std.specs.Prelude.{◌≡◌, ◌≤◌, length};
ghost use Rattle.df_io.specs.Writing.{Writes};
ghost use Rattle.df_tell.specs.Path.{why_words, why_number, path_refusal_text};

use df_design::Why;
use df_io::{LineBuf, Sink, WriteFault, put_number, put_text, write_all};

/// Why a search can't go on at a path, with the numbers that are printed of it.
#[derive(Clone, Copy, Debug, PartialEq, Eq)]
pub enum PathRefusal {
    /// The path decides `length` columns, and there are only `columns`.
    Long { length: u32, columns: u32 },
    /// The path isn't a node.
    NoNode(Why),
}

/// Writes the line of a path at which a search can't go on.
pub fn write_path_refusal<K: Sink>(refusal: PathRefusal, out: &mut K) -> Result<(), WriteFault>
    ensures { Writes K.written K.faults out.old out.new (path_refusal_text refusal) result }
{
    let mut line = LineBuf::new();
    fill_refusal(&mut line, refusal);
    write_all(out, line.as_slice())
}

// Fills the buffer with that line.
#[tactic(auto, unfolding(crate::specs::Path::path_refusal_text), using(df_io::proofs::NumbersBack::decimal_short))]
fn fill_refusal(line: &mut LineBuf, refusal: PathRefusal)
    ensures { line.new.items ≡ path_refusal_text refusal }
{
    line.clear();
    match refusal {
        PathRefusal::Long { length, columns } => {
            put_text(line, b"path refused length ");
            put_number(line, u64::from(length));
            put_text(line, b" above ");
            put_number(line, u64::from(columns));
        }
        PathRefusal::NoNode(why) => {
            put_text(line, b"path refused ");
            put_text(line, words(why));
            put_number(line, u64::from(number(why)));
        }
    }
    line.push(b'\n');
}

// What of a path makes it no node.
fn words(why: Why) -> &'static [u8]
    ensures text { result.now ≡ why_words why }
    ensures short { length (why_words why) ≤ 15 }
{
    match why {
        Why::SettledBefore(_) => b"settled before ",
        Why::Over(_) => b"over ",
        Why::Under(_) => b"under ",
        Why::Residue(_) => b"residue ",
    }
}

// The length of the prefix, or the row.
fn number(why: Why) -> u32
    ensures { result ≡ why_number why }
{
    match why {
        Why::SettledBefore(length) => length,
        Why::Over(row) | Why::Under(row) | Why::Residue(row) => row,
    }
}
