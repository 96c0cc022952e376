// The difference table of a problem.
ghost use Rattle.std.specs.Prelude.{◌≡◌, ◌<◌, length, All};
ghost use Rattle.df_io.specs.Writing.{Writes};
ghost use Rattle.df_family.specs.Tables.{table as table_of, entry_at, IsRow};
ghost use Rattle.df_tell.specs.Table.{row_line, table_text};

use df_family::Table;
use df_io::{LineBuf, Sink, WriteFault, write_all};
use df_lang::Problem;
use df_list::{put_table_row, row_text_is_short};

/// Writes the difference table of a problem, a line for each row.
pub fn write_table<K: Sink>(problem: &Problem, table: &Table, out: &mut K) -> Result<(), WriteFault>
    requires table { table.now ≡ table_of problem.now }
    requires rows { All (λ e. IsRow problem.now e.row) (table_of problem.now) }
    ensures { Writes K.written K.faults out.old out.new (table_text problem.now) result }
{
    let mut line = LineBuf::new();
    for place in 0..table.len() {
        fill_row(&mut line, problem, table, place);
        write_all(out, line.as_slice())?;
    }
    Ok(())
}

// Fills the buffer with the line of the table's row at this place.
#[tactic(auto, unfolding(crate::specs::Table::row_line))]
fn fill_row(line: &mut LineBuf, problem: &Problem, table: &Table, place: usize)
    requires table { table.now ≡ table_of problem.now }
    requires rows { All (λ e. IsRow problem.now e.row) (table_of problem.now) }
    requires place { place < length table.now }
    ensures { line.new.items ≡ row_line problem.now (entry_at table.now place) }
{
    let row = table.row(place);
    let found = table.found(place);
    let stated = table.stated(place);
    let counted = row;
    row_text_is_short(problem, counted, found, stated);
    line.clear();
    put_table_row(line, problem, row, found, stated);
    line.push(b'\n');
}
