// The verdict on a family, and the development where it is accepted.
ghost use Rattle.std.specs.Prelude.{◌≡◌, ◌≤◌, length};
ghost use Rattle.df_io.specs.Writing.{Writes};
ghost use Rattle.df_family.specs.Tables.{IsRow};
ghost use Rattle.df_family.specs.Verdicts.{IsVerdictOn};
ghost use Rattle.df_tell.specs.Verdict.{block_line, refused_line, accepted_text, verdict_text};

use crate::counts::fill_count;
use df_family::{Develop, Row, Verdict};
use df_io::{LineBuf, Sink, WriteFault, put_text, write_all};
use df_lang::{Problem, block_text_is_short, put_block};
use df_list::{put_table_row, row_text_is_short};
use df_subsets::Block;

/// Writes a verdict on a problem, and the development where it is accepted.
pub fn write_verdict<K: Sink>(
    problem: &Problem,
    verdict: Verdict,
    out: &mut K,
) -> Result<(), WriteFault>
    requires { IsVerdictOn problem.now verdict }
    ensures { Writes K.written K.faults out.old out.new (verdict_text problem.now verdict) result }
{
    let mut line = LineBuf::new();
    match verdict {
        Verdict::Accepted { blocks } => write_accepted(problem, blocks, &mut line, out),
        Verdict::Refused { row, found, stated } => {
            fill_refused(&mut line, problem, row, found, stated);
            write_all(out, line.as_slice())
        }
    }
}

// Writes the number of blocks and the blocks of the development, line by line through the buffer.
fn write_accepted<K: Sink>(
    problem: &Problem,
    blocks: u64,
    line: &mut LineBuf,
    out: &mut K,
) -> Result<(), WriteFault>
    ensures { Writes K.written K.faults out.old out.new (accepted_text problem.now blocks) result }
{
    fill_count(line, b"accepted ", blocks);
    write_all(out, line.as_slice())?;
    let mut rest = Develop::new(problem);
    while let Some(block) = rest.next() {
        fill_block(line, problem, &block);
        write_all(out, line.as_slice())?;
    }
    Ok(())
}

// Fills the buffer with the line of a block of at most 16 points.
#[tactic(auto, unfolding(crate::specs::Verdict::block_line))]
fn fill_block(line: &mut LineBuf, problem: &Problem, block: &Block)
    requires { length block.now ≤ 16 }
    ensures { line.new.items ≡ block_line problem.now block.now }
{
    block_text_is_short(problem, block);
    line.clear();
    put_text(line, b"block ");
    put_block(line, problem, block);
    line.push(b'\n');
}

// Fills the buffer with the line of a refused family: the row of its table that differs.
#[tactic(auto, unfolding(crate::specs::Verdict::refused_line))]
fn fill_refused(line: &mut LineBuf, problem: &Problem, row: Row, found: u64, stated: u64)
    requires { IsRow problem.now row }
    ensures { line.new.items ≡ refused_line problem.now row found stated }
{
    let counted = row;
    row_text_is_short(problem, counted, found, stated);
    line.clear();
    put_text(line, b"refused ");
    put_table_row(line, problem, row, found, stated);
    line.push(b'\n');
}
