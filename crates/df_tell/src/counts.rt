// The line that tells a number of things.
ghost use Rattle.std.specs.Prelude.{◌≡◌, ◌≤◌, length};
ghost use Rattle.df_tell.specs.Counts.{count_line};

use df_io::{LineBuf, put_number, put_text};

/// Fills the buffer with the line of a count: a word of at most 16 bytes, the space after it included, and the number.
#[tactic(auto, unfolding(crate::specs::Counts::count_line), using(df_io::proofs::NumbersBack::decimal_short))]
pub fn fill_count(line: &mut LineBuf, word: &[u8], count: u64)
    requires { length word.now ≤ 16 }
    ensures { line.new.items ≡ count_line word.now count }
{
    line.clear();
    put_text(line, word);
    put_number(line, count);
    line.push(b'\n');
}
