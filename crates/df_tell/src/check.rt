// What is printed of a chain of dossiers: that it is complete, or its first line that breaks a rule.
ghost use Rattle.std.specs.Prelude.{◌≡◌};
ghost use Rattle.df_io.specs.Writing.{Writes};
ghost use Rattle.df_tell.specs.Check.{complete_text, log_refusal_text};

use crate::counts::fill_count;
use df_check::LogFault;
use df_io::{LineBuf, Sink, WriteFault, write_all};
use df_list::{log_fault_text_is_short, put_log_fault};

/// Writes the line of a chain that is complete: how many designs it has.
pub fn write_complete<K: Sink>(designs: u64, out: &mut K) -> Result<(), WriteFault>
    ensures { Writes K.written K.faults out.old out.new (complete_text designs) result }
{
    let mut line = LineBuf::new();
    fill_count(&mut line, b"complete ", designs);
    write_all(out, line.as_slice())
}

/// Writes the line of a chain that breaks a rule of logs or of chains: its first line that does, from 1, and the fault with
/// its numbers.
pub fn write_log_refusal<K: Sink>(line: u64, fault: LogFault, out: &mut K) -> Result<(), WriteFault>
    ensures { Writes K.written K.faults out.old out.new (log_refusal_text line fault) result }
{
    let mut text = LineBuf::new();
    fill_refusal(&mut text, line, fault);
    write_all(out, text.as_slice())
}

// Fills the buffer with that line.
#[tactic(auto, unfolding(crate::specs::Check::log_refusal_text))]
fn fill_refusal(text: &mut LineBuf, line: u64, fault: LogFault)
    ensures { text.new.items ≡ log_refusal_text line fault }
{
    let shown = fault.text();
    log_fault_text_is_short(line, shown);
    text.clear();
    put_log_fault(text, line, shown);
    text.push(b'\n');
}
