// What is printed of words that are not a command.
ghost use Rattle.std.specs.Prelude.{◌≡◌};
ghost use Rattle.df_io.specs.Writing.{Writes};
ghost use Rattle.df_tell.specs.Usage.{usage_text};

use df_io::{LineBuf, Sink, WriteFault, put_number, put_text, write_all};

/// Writes the line of words that are not a command: the number of the first word at fault, from 1.
pub fn write_usage<K: Sink>(word: usize, out: &mut K) -> Result<(), WriteFault>
    ensures { Writes K.written K.faults out.old out.new (usage_text word) result }
{
    let mut line = LineBuf::new();
    fill_usage(&mut line, word);
    write_all(out, line.as_slice())
}

// Fills the buffer with that line.
#[tactic(auto, unfolding(crate::specs::Usage::usage_text), using(df_io::proofs::NumbersBack::decimal_short))]
fn fill_usage(line: &mut LineBuf, word: usize)
    ensures { line.new.items ≡ usage_text word }
{
    line.clear();
    put_text(line, b"usage word ");
    put_number(line, word as u64);
    line.push(b'\n');
}
