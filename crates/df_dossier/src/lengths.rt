// The lengths of lines and of their pieces: laws that say how much room is enough, each the
// contract of a function that changes nothing.
ghost use Rattle.std.specs.Prelude.{◌≤◌, ◌+◌, ◌*◌, ◌∷◌, length, decimal};
ghost use Rattle.std.specs.List.{flat_map};
ghost use Rattle.df_io.specs.Joined.{spaced};
ghost use Rattle.df_dossier.specs.Entries.{entry_text, row_tokens};
ghost use Rattle.df_dossier.specs.Tokens.{after_spaces};
ghost use Rattle.df_dossier.specs.Paths.{end_tokens};
ghost use Rattle.df_dossier.specs.Designs.{block_piece};

use df_lang::{Problem, block_text_is_short};
use df_subsets::Block;
use df_walk::{CutRow, Entry};

/// The most bytes of the line of an entry: `cut`, and for each of its rows two spaces, a weight and
/// a row.
pub const ENTRY_BYTES: usize = 291;

/// The most bytes of an end line, of a spent one without its path.
pub const END_BYTES: usize = 70;

/// The most bytes of a piece of a path, a space and a number.
pub const PATH_BYTES: usize = 11;

/// The line of an entry has at most `ENTRY_BYTES` bytes.
pub fn entry_text_is_short(entry: &Entry)
    ensures { length (entry_text entry.now) ≤ ENTRY_BYTES }
{
    match entry {
        Entry::Branch(column) => path_piece_is_short(*column),
        Entry::Over(row) => path_piece_is_short(*row),
        Entry::Under(row) => path_piece_is_short(*row),
        Entry::Settled => {}
        Entry::Residue { row, divisor } => {
            path_piece_is_short(*row);
            path_piece_is_short(*divisor);
        }
        Entry::Cut(rows) => rows_are_short(rows.as_slice()),
    }
}

// The weighted rows of a cut have at most 18 bytes each.
fn rows_are_short(rows: &[CutRow])
    ensures { length (flat_map (λ w. after_spaces (row_tokens w)) rows.now) ≤ 18 * length rows.now }
{
    for row in rows {
        row_is_short(*row);
    }
}

// A weighted row has at most 18 bytes.
fn row_is_short(row: CutRow)
    ensures { length (after_spaces (row_tokens row)) ≤ 18 }
{
    let _weight = row.weight;
    path_piece_is_short(row.row);
}

/// What `put_end` appends has at most `END_BYTES` bytes.
pub fn end_text_is_short(finished: bool, designs: u64, nodes: u64)
    ensures { length (spaced (end_tokens finished designs nodes)) ≤ END_BYTES }
{}

/// What `put_path_start` and `put_path_column` append has at most `PATH_BYTES` bytes.
pub fn path_piece_is_short(number: u32)
    ensures { length (32 ∷ decimal number) ≤ PATH_BYTES }
{}

/// What `put_design_block` appends has at most 29 bytes for each point of the block, and three
/// more.
pub fn block_piece_is_short(problem: &Problem, block: &Block, place: u64)
    ensures { length (block_piece problem.now.group block.now place) ≤ 29 * length block.now + 3 }
{
    block_text_is_short(problem, block);
}
