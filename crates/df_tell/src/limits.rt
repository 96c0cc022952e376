// What is printed of a problem that is above a limit.
ghost use Rattle.std.specs.Prelude.{◌≡◌, ◌≤◌, ◌+◌, ◌++◌};
ghost use Rattle.arrayvec.specs.ArrayVec.{array_vec_len};
ghost use Rattle.df_io.specs.Writing.{Writes};
ghost use Rattle.df_tell.specs.Limits.{limit_text, bound_text};

use df_io::{LineBuf, Sink, WriteFault, put_number, put_text, write_all};
use df_matrix::{MOST_COLUMNS, MOST_ENTRIES};
use df_orbits::{MOST_SUBSETS, MOST_SUMMED};

/// A limit that a problem is above, with the numbers that are printed of it.
#[derive(Clone, Copy, Debug, PartialEq, Eq)]
pub enum Limit {
    /// Version 1: there are more than `df_orbits::MOST_SUBSETS` blocks of `size` of the `points`.
    Subsets { size: u8, points: u8 },
    /// Version 2: there are more than `df_orbits::MOST_SUMMED` blocks of all sizes together of the `points`.
    SizedSubsets { points: u8 },
    /// This number of orbits is kept, more than `df_matrix::MOST_COLUMNS`.
    Columns { found: u64 },
    /// Version 1: rows times columns are this number, more than `df_matrix::MOST_ENTRIES`.
    Entries { found: u64 },
}

/// Writes the line of a limit that a problem is above.
pub fn write_limit<K: Sink>(limit: Limit, out: &mut K) -> Result<(), WriteFault>
    ensures { Writes K.written K.faults out.old out.new (limit_text limit) result }
{
    let mut line = LineBuf::new();
    fill_limit(&mut line, limit);
    write_all(out, line.as_slice())
}

// Fills the buffer with that line.
#[tactic(auto, unfolding(crate::specs::Limits::limit_text), using(df_io::proofs::NumbersBack::decimal_short))]
fn fill_limit(line: &mut LineBuf, limit: Limit)
    ensures { line.new.items ≡ limit_text limit }
{
    line.clear();
    match limit {
        Limit::Subsets { size, points } => {
            put_text(line, b"limit subsets ");
            put_number(line, u64::from(size));
            put_text(line, b" of ");
            put_number(line, u64::from(points));
            put_bound(line, MOST_SUBSETS as u64);
        }
        Limit::SizedSubsets { points } => {
            put_text(line, b"limit subsets of ");
            put_number(line, u64::from(points));
            put_bound(line, MOST_SUMMED as u64);
        }
        Limit::Columns { found } => {
            put_text(line, b"limit columns ");
            put_number(line, found);
            put_bound(line, MOST_COLUMNS);
        }
        Limit::Entries { found } => {
            put_text(line, b"limit entries ");
            put_number(line, found);
            put_bound(line, MOST_ENTRIES);
        }
    }
}

// Appends the limit itself, and the end of the line. The buffer has room for them: 28 bytes or fewer.
#[tactic(auto, unfolding(crate::specs::Limits::bound_text), using(df_io::proofs::NumbersBack::decimal_short))]
fn put_bound(line: &mut LineBuf, most: u64)
    requires { array_vec_len line.old ≤ 900 }
    ensures { line.new.items ≡ line.old.items ++ bound_text most }
{
    put_text(line, b" above ");
    put_number(line, most);
    line.push(b'\n');
}
