// What is printed of an input that is not a source.
ghost use Rattle.std.specs.Prelude.{◌≡◌};
ghost use Rattle.df_io.specs.Writing.{Writes};
ghost use Rattle.df_tell.specs.Refusal.{refusal_text};

use df_io::{LineBuf, Sink, WriteFault, put_number, put_text, write_all};
use df_lang::SourceError;
use df_list::put_source_fault;

/// Writes the line of an input that is not a source: its first line that is wrong, and why.
pub fn write_refusal<K: Sink>(error: &SourceError, out: &mut K) -> Result<(), WriteFault>
    ensures { Writes K.written K.faults out.old out.new (refusal_text error.now) result }
{
    let mut line = LineBuf::new();
    fill_refusal(&mut line, error);
    write_all(out, line.as_slice())
}

// Fills the buffer with that line.
#[tactic(auto, unfolding(crate::specs::Refusal::refusal_text), using(df_io::proofs::NumbersBack::decimal_short))]
fn fill_refusal(line: &mut LineBuf, error: &SourceError)
    ensures { line.new.items ≡ refusal_text error.now }
{
    line.clear();
    put_text(line, b"source refused line ");
    put_number(line, error.line);
    put_text(line, b" ");
    put_source_fault(line, &error.fault);
    line.push(b'\n');
}
