// The orbit matrix of a problem.
ghost use Rattle.std.specs.Prelude.{◌≡◌, ◌≤◌, ◌<◌, ◌∷◌, [], codes, length, drop};
ghost use Rattle.std.specs.List.{flat_map};
ghost use Rattle.df_io.specs.Writing.{Writes};
ghost use Rattle.df_kramer_mesner.specs.OrbitSystems.{orbits_of, columns_of, entries_of, targets_of, orbit_at};
ghost use Rattle.df_tell.specs.Cells.{entry_ahead, next_after};
ghost use Rattle.df_tell.specs.Matrix.{counts_line, row_line, row_at, rows_text, orbit_head, entry_text, column_text, end_text, orbit_line, orbit_lines, matrix_text};

use df_io::{LineBuf, Sink, WriteFault, put_number, put_text, write_all};
use df_kramer_mesner::rows_are_pairs_and_needed;
use df_lang::{Problem, block_text_is_short, point_text_is_short, put_block, put_point};
use df_matrix::OrbitMatrix;
use df_subsets::{Block, Point};
use df_system::Cell;

/// Writes an orbit matrix: how large it is, its rows, and its orbits with their entries.
pub fn write_matrix<K: Sink>(matrix: &OrbitMatrix, out: &mut K) -> Result<(), WriteFault>
    ensures { Writes K.written K.faults out.old out.new (matrix_text matrix.now) result }
{
    let mut line = LineBuf::new();
    fill_counts(&mut line, matrix);
    write_all(out, line.as_slice())?;
    write_rows(matrix, &mut line, out)?;
    write_orbit_lines(matrix, &mut line, out)
}

// Writes the rows, line by line through the buffer.
fn write_rows<K: Sink>(
    matrix: &OrbitMatrix,
    line: &mut LineBuf,
    out: &mut K,
) -> Result<(), WriteFault>
    ensures { Writes K.written K.faults out.old out.new (rows_text matrix.now) result }
{
    for row in 0..matrix.system().rows() {
        fill_row(line, matrix, row);
        write_all(out, line.as_slice())?;
    }
    Ok(())
}

// Writes the line of each orbit.
fn write_orbit_lines<K: Sink>(
    matrix: &OrbitMatrix,
    line: &mut LineBuf,
    out: &mut K,
) -> Result<(), WriteFault>
    ensures { Writes K.written K.faults out.old out.new (orbit_lines matrix.now) result }
{
    for orbit in 0..matrix.orbit_count() {
        write_orbit(matrix, orbit, line, out)?;
    }
    Ok(())
}

// Writes the line of an orbit in pieces, since it may be longer than the buffer: its points, each entry, and its column.
fn write_orbit<K: Sink>(
    matrix: &OrbitMatrix,
    orbit: usize,
    line: &mut LineBuf,
    out: &mut K,
) -> Result<(), WriteFault>
    requires { orbit < length (orbits_of matrix.now) }
    ensures { Writes K.written K.faults out.old out.new (orbit_line matrix.now (orbit_at matrix.now orbit)) result }
{
    fill_head(line, matrix, orbit);
    write_all(out, line.as_slice())?;
    write_entries(matrix, orbit, line, out)?;
    fill_end(line, matrix, orbit);
    write_all(out, line.as_slice())
}

// Writes the entries of an orbit: one merge of its cells and the rows, since a row that has no cell has entry 0.
fn write_entries<K: Sink>(
    matrix: &OrbitMatrix,
    orbit: usize,
    line: &mut LineBuf,
    out: &mut K,
) -> Result<(), WriteFault>
    requires { orbit < length (orbits_of matrix.now) }
    ensures { Writes K.written K.faults out.old out.new (flat_map entry_text (entries_of matrix.now (orbit_at matrix.now orbit))) result }
{
    rows_are_pairs_and_needed();
    let cells = matrix.orbit_cells(orbit);
    let mut next = 0;
    for row in 0..matrix.system().rows() {
        let entry = entry_of_next(cells.as_slice(), next, row);
        fill_entry(line, entry);
        write_all(out, line.as_slice())?;
        next = after_entry(next, entry);
    }
    Ok(())
}

// The entry of a row, where the cells of the rows before it are those below the number `next`.
fn entry_of_next(cells: &[Cell], next: usize, row: u32) -> u32
    ensures { result ≡ entry_ahead (drop next cells.now) row }
{
    if next < cells.len() && cells[next].row == row {
        return cells[next].value;
    }
    0
}

// How many cells are of the rows so far: one more where the row has an entry.
fn after_entry(next: usize, entry: u32) -> usize
    requires { next < 4294967295 }
    ensures { result ≡ next_after next entry }
{
    if entry > 0 { next + 1 } else { next }
}

// Fills the buffer with the first line: how many rows and orbits there are, and how many orbits are kept.
#[tactic(auto, unfolding(crate::specs::Matrix::counts_line), using(df_io::proofs::NumbersBack::decimal_short))]
fn fill_counts(line: &mut LineBuf, matrix: &OrbitMatrix)
    ensures { line.new.items ≡ counts_line (length (targets_of matrix.now)) (length (orbits_of matrix.now)) (length (columns_of matrix.now)) }
{
    let system = matrix.system();
    line.clear();
    put_text(line, b"rows ");
    put_number(line, u64::from(system.rows()));
    put_text(line, b" orbits ");
    put_number(line, matrix.orbit_count() as u64);
    put_text(line, b" kept ");
    put_number(line, u64::from(system.columns()));
    line.push(b'\n');
}

// Fills the buffer with the line of the row of this number.
fn fill_row(line: &mut LineBuf, matrix: &OrbitMatrix, row: u32)
    requires { row < length (targets_of matrix.now) }
    ensures { line.new.items ≡ row_at matrix.now row }
{
    let problem = matrix.problem();
    let target = matrix.system().target(row);
    if row < matrix.pair_rows() {
        let (p, q) = matrix.row_pair(row);
        fill_pair_row(line, problem, row, p, q, target);
    } else {
        fill_block_row(line, problem, row, &matrix.row_block(row), target);
    }
}

// Fills the buffer with the line of a row of pairs: its number, its representative and its target.
#[tactic(auto, unfolding(crate::specs::Matrix::row_line), using(df_io::proofs::NumbersBack::decimal_short))]
fn fill_pair_row(line: &mut LineBuf, problem: &Problem, row: u32, p: Point, q: Point, target: u32)
    ensures { line.new.items ≡ row_line (codes " pair ") problem.now row (p ∷ q ∷ []) target }
{
    point_text_is_short(problem, p);
    point_text_is_short(problem, q);
    line.clear();
    put_text(line, b"row ");
    put_number(line, u64::from(row));
    put_text(line, b" pair ");
    put_point(line, problem, p);
    line.push(b' ');
    put_point(line, problem, q);
    put_text(line, b" target ");
    put_number(line, u64::from(target));
    line.push(b'\n');
}

// Fills the buffer with the line of the row of a required orbit: its number, the orbit's representative, of at most 16
// points, and its target.
#[tactic(auto, unfolding(crate::specs::Matrix::row_line), using(df_io::proofs::NumbersBack::decimal_short))]
fn fill_block_row(line: &mut LineBuf, problem: &Problem, row: u32, block: &Block, target: u32)
    requires { length block.now ≤ 16 }
    ensures { line.new.items ≡ row_line (codes " block ") problem.now row block.now target }
{
    block_text_is_short(problem, block);
    line.clear();
    put_text(line, b"row ");
    put_number(line, u64::from(row));
    put_text(line, b" block ");
    put_block(line, problem, block);
    put_text(line, b" target ");
    put_number(line, u64::from(target));
    line.push(b'\n');
}

// Fills the buffer with the beginning of an orbit's line: its representative.
#[tactic(auto, unfolding(crate::specs::Matrix::orbit_head))]
fn fill_head(line: &mut LineBuf, matrix: &OrbitMatrix, orbit: usize)
    requires { orbit < length (orbits_of matrix.now) }
    ensures { line.new.items ≡ orbit_head matrix.now (orbit_at matrix.now orbit) }
{
    let problem = matrix.problem();
    let block = matrix.orbit_block(orbit);
    block_text_is_short(problem, &block);
    line.clear();
    put_text(line, b"orbit ");
    put_block(line, problem, &block);
    put_text(line, b" entries");
}

// Fills the buffer with the text of an entry.
#[tactic(auto, unfolding(crate::specs::Matrix::entry_text), using(df_io::proofs::NumbersBack::decimal_short))]
fn fill_entry(line: &mut LineBuf, entry: u32)
    ensures { line.new.items ≡ entry_text entry }
{
    line.clear();
    line.push(b' ');
    put_number(line, u64::from(entry));
}

// Fills the buffer with the end of the line of an orbit.
fn fill_end(line: &mut LineBuf, matrix: &OrbitMatrix, orbit: usize)
    requires { orbit < length (orbits_of matrix.now) }
    ensures { line.new.items ≡ end_text matrix.now (orbit_at matrix.now orbit) }
{
    match matrix.kept(orbit) {
        Some(column) => fill_column(line, column),
        None => {
            line.clear();
            put_text(line, b" dropped\n");
        }
    }
}

// Fills the buffer with the end of the line of a kept orbit: its column.
#[tactic(auto, unfolding(crate::specs::Matrix::column_text), using(df_io::proofs::NumbersBack::decimal_short))]
fn fill_column(line: &mut LineBuf, column: u32)
    ensures { line.new.items ≡ column_text column }
{
    line.clear();
    put_text(line, b" column ");
    put_number(line, u64::from(column));
    line.push(b'\n');
}
