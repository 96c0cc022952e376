// The orbits of pairs and of blocks.
ghost use Rattle.std.specs.Prelude.{◌≡◌, ◌≤◌, ◌<◌, [], length, slice_index_or};
ghost use Rattle.df_io.specs.Writing.{Writes};
ghost use Rattle.df_tell.specs.Orbits.{orbit_line, orbit_lines, orbits_text, AreShort};

use crate::counts::fill_count;
use df_io::{LineBuf, Sink, WriteFault, put_number, put_text, write_all};
use df_lang::{Problem, block_text_is_short, put_block};
use df_matrix::ProblemOrbits;
use df_orbits::Orbits;
use df_subsets::Block;

/// Writes the orbits of pairs and those of blocks of a problem.
pub fn write_orbits<K: Sink>(orbits: &ProblemOrbits, out: &mut K) -> Result<(), WriteFault>
    ensures { Writes K.written K.faults out.old out.new (orbits_text orbits.now) result }
{
    let problem = orbits.problem();
    write_orbit_lines(b"pairs ", b"pair ", problem, orbits.pairs(), out)?;
    write_orbit_lines(b"blocks ", b"block ", problem, orbits.blocks(), out)
}

// Writes how many orbits there are, and the line of each, with the words for many and for one.
fn write_orbit_lines<K: Sink>(
    many: &[u8],
    one: &[u8],
    problem: &Problem,
    orbits: &Orbits,
    out: &mut K,
) -> Result<(), WriteFault>
    requires many { length many.now ≤ 16 }
    requires one { length one.now ≤ 16 }
    requires short { AreShort orbits.now }
    ensures { Writes K.written K.faults out.old out.new (orbit_lines many.now one.now problem.now orbits.now) result }
{
    let mut line = LineBuf::new();
    fill_count(&mut line, many, orbits.len() as u64);
    write_all(out, line.as_slice())?;
    for number in 0..orbits.len() {
        fill_orbit_at(&mut line, one, problem, orbits, number);
        write_all(out, line.as_slice())?;
    }
    Ok(())
}

// Fills the buffer with the line of the orbit of this number, with the word for one orbit.
fn fill_orbit_at(line: &mut LineBuf, one: &[u8], problem: &Problem, orbits: &Orbits, number: usize)
    requires one { length one.now ≤ 16 }
    requires short { AreShort orbits.now }
    requires number { number < length orbits.now }
    ensures { line.new.items ≡ orbit_line one.now problem.now (slice_index_or orbits.now number ([], 0)) }
{
    fill_orbit(line, one, problem, &orbits.rep(number), orbits.size(number));
}

// Fills the buffer with the line of an orbit: a word of at most 16 bytes, the space after it included, the orbit's
// representative, of at most 16 points, and how many members it has.
#[tactic(auto, unfolding(crate::specs::Orbits::orbit_line), using(df_io::proofs::NumbersBack::decimal_short))]
fn fill_orbit(line: &mut LineBuf, word: &[u8], problem: &Problem, representative: &Block, size: u32)
    requires word { length word.now ≤ 16 }
    requires representative { length representative.now ≤ 16 }
    ensures { line.new.items ≡ orbit_line word.now problem.now (representative.now, size) }
{
    block_text_is_short(problem, representative);
    line.clear();
    put_text(line, word);
    put_block(line, problem, representative);
    put_text(line, b" size ");
    put_number(line, u64::from(size));
    line.push(b'\n');
}
