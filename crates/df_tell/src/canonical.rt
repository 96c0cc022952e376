// The canonical lines of a problem.
ghost use Rattle.std.specs.Prelude.{◌≡◌, ◌<◌, ◌++◌, [], ◌∷◌, length, slice_index_or};
ghost use Rattle.df_io.specs.Writing.{Writes};
ghost use Rattle.df_lang.specs.Canonical.{canonical};
ghost use Rattle.df_tell.specs.Canonical.{canonical_text};

use df_io::{LineBuf, Sink, WriteFault, write_all};
use df_lang::{Problem, line_count, print};

/// Writes the canonical lines of a problem.
pub fn write_canonical<K: Sink>(problem: &Problem, out: &mut K) -> Result<(), WriteFault>
    ensures { Writes K.written K.faults out.old out.new (canonical_text problem.now) result }
{
    let mut line = LineBuf::new();
    for number in 0..line_count(problem) {
        fill_canonical(&mut line, problem, number);
        write_all(out, line.as_slice())?;
    }
    Ok(())
}

// Fills the buffer with the canonical line of this number.
fn fill_canonical(line: &mut LineBuf, problem: &Problem, number: usize)
    requires { number < length (canonical problem.now) }
    ensures { line.new.items ≡ slice_index_or (canonical problem.now) number [] ++ 10 ∷ [] }
{
    print(problem, line, number);
    line.push(b'\n');
}
