// The lines of a run's steps, gathered: those of entries, and those of the design that was found.
// A line of an entry or of a block is one piece; the line of a design is gathered block by block,
// since it may be longer than the buffer.
ghost use Rattle.std.specs.Prelude.{◌≡◌, ◌≤◌, ◌++◌, ◌∷◌, [], ℕ, List, length, IsSome};
ghost use Rattle.std.specs.List.{flat_map};
ghost use Rattle.df_lists.specs.Membership.{In};
ghost use Rattle.df_walk.specs.declared.Entry.TheVariants.{Branch, Over, Under, Residue, Settled};
ghost use Rattle.df_dossier.specs.Designs.{block_piece, block_pieces};
ghost use Rattle.df_dossier.specs.Entries.{entry_text};
ghost use Rattle.df_tell.specs.Gathered.{Gathers};
ghost use Rattle.df_tell.specs.Run.{design_line, block_comment, solution_lines};

use crate::gathered::make_room;
use crate::run::Shown;
use df_design::{Blocks, Designs, Reps};
use df_dossier::{
    block_piece_is_short, path_piece_is_short, put_branch, put_design_block, put_design_start,
    put_over, put_residue, put_settled, put_under,
};
use df_io::{LineBuf, Sink, WriteFault, put_text};
use df_lang::{Problem, block_text_is_short, problems_keep_their_rules, put_block};
use df_subsets::{Block, candidates_are_all, subsets_are_all};

/// Gathers the line of a branch.
pub(crate) fn gather_branch<K: Sink>(
    column: u32,
    gathered: &mut LineBuf,
    out: &mut K,
) -> Result<(), WriteFault>
    ensures { Gathers K.written K.faults out.old out.new gathered.old.items gathered.new.items
        (entry_text (Branch column) ++ 10 ∷ []) result }
{
    path_piece_is_short(column);
    make_room(gathered, out)?;
    put_branch(gathered, column);
    gathered.push(b'\n');
    Ok(())
}

/// Gathers the line of a row that is over.
pub(crate) fn gather_over<K: Sink>(
    row: u32,
    gathered: &mut LineBuf,
    out: &mut K,
) -> Result<(), WriteFault>
    ensures { Gathers K.written K.faults out.old out.new gathered.old.items gathered.new.items
        (entry_text (Over row) ++ 10 ∷ []) result }
{
    path_piece_is_short(row);
    make_room(gathered, out)?;
    put_over(gathered, row);
    gathered.push(b'\n');
    Ok(())
}

/// Gathers the line of a row that is under.
pub(crate) fn gather_under<K: Sink>(
    row: u32,
    gathered: &mut LineBuf,
    out: &mut K,
) -> Result<(), WriteFault>
    ensures { Gathers K.written K.faults out.old out.new gathered.old.items gathered.new.items
        (entry_text (Under row) ++ 10 ∷ []) result }
{
    path_piece_is_short(row);
    make_room(gathered, out)?;
    put_under(gathered, row);
    gathered.push(b'\n');
    Ok(())
}

/// Gathers the line of a residue.
pub(crate) fn gather_residue<K: Sink>(
    row: u32,
    divisor: u32,
    gathered: &mut LineBuf,
    out: &mut K,
) -> Result<(), WriteFault>
    ensures { Gathers K.written K.faults out.old out.new gathered.old.items gathered.new.items
        (entry_text (Residue row divisor) ++ 10 ∷ []) result }
{
    path_piece_is_short(row);
    path_piece_is_short(divisor);
    make_room(gathered, out)?;
    put_residue(gathered, row, divisor);
    gathered.push(b'\n');
    Ok(())
}

/// Gathers the line of a settled entry, and the design that was found.
pub(crate) fn gather_settled<K: Sink>(
    problem: &Problem,
    designs: &Designs<'_>,
    shown: Shown,
    gathered: &mut LineBuf,
    out: &mut K,
) -> Result<(), WriteFault>
    requires problem { designs.now.problem ≡ problem.now }
    requires chosen { IsSome designs.now.search.chosen }
    ensures { Gathers K.written K.faults out.old out.new gathered.old.items gathered.new.items
        ((entry_text Settled ++ 10 ∷ [])
        ++ solution_lines shown problem.now designs.now.search.chosen) result }
{
    make_room(gathered, out)?;
    put_settled(gathered);
    gathered.push(b'\n');
    gather_design(problem, designs, shown, gathered, out)
}

/// Gathers the design that was found: its base blocks, and where they are shown its blocks.
pub(crate) fn gather_design<K: Sink>(
    problem: &Problem,
    designs: &Designs<'_>,
    shown: Shown,
    gathered: &mut LineBuf,
    out: &mut K,
) -> Result<(), WriteFault>
    requires problem { designs.now.problem ≡ problem.now }
    requires chosen { IsSome designs.now.search.chosen }
    ensures { Gathers K.written K.faults out.old out.new gathered.old.items gathered.new.items
        (solution_lines shown problem.now designs.now.search.chosen) result }
{
    subsets_are_all();
    candidates_are_all();
    problems_keep_their_rules(problem);
    gather_base(problem, designs.reps(), gathered, out)?;
    if shown.blocks {
        gather_comments(problem, designs.blocks(), gathered, out)
    } else {
        Ok(())
    }
}

// Gathers the line of a design in pieces, since it may have many base blocks.
fn gather_base<K: Sink>(
    problem: &Problem,
    blocks: Reps<'_>,
    gathered: &mut LineBuf,
    out: &mut K,
) -> Result<(), WriteFault>
    ensures { Gathers K.written K.faults out.old out.new gathered.old.items gathered.new.items
        (design_line problem.now blocks.entry) result }
{
    make_room(gathered, out)?;
    put_design_start(gathered);
    gather_pieces(problem, blocks, gathered, out)?;
    make_room(gathered, out)?;
    gathered.push(b'\n');
    Ok(())
}

// Gathers the base blocks of the line of a design, the first one at place 0.
fn gather_pieces<K: Sink>(
    problem: &Problem,
    blocks: Reps<'_>,
    gathered: &mut LineBuf,
    out: &mut K,
) -> Result<(), WriteFault>
    ensures { Gathers K.written K.faults out.old out.new gathered.old.items gathered.new.items
        (block_pieces problem.now.group 0 blocks.entry) result }
{
    let mut rest = blocks;
    let mut place = 0;
    while let Some(block) = rest.next() {
        gather_piece(problem, &block, place, gathered, out)?;
        place = 1;
    }
    Ok(())
}

// Gathers a block of at most 16 points at a place of the line of a design.
fn gather_piece<K: Sink>(
    problem: &Problem,
    block: &Block,
    place: u64,
    gathered: &mut LineBuf,
    out: &mut K,
) -> Result<(), WriteFault>
    requires { length block.now ≤ 16 }
    ensures { Gathers K.written K.faults out.old out.new gathered.old.items gathered.new.items
        (block_piece problem.now.group block.now place) result }
{
    block_piece_is_short(problem, block, place);
    make_room(gathered, out)?;
    put_design_block(gathered, problem, block, place);
    Ok(())
}

// Gathers the comment lines of blocks of at most 16 points.
fn gather_comments<K: Sink>(
    problem: &Problem,
    blocks: Blocks<'_>,
    gathered: &mut LineBuf,
    out: &mut K,
) -> Result<(), WriteFault>
    requires { (block : List ℕ) → In blocks block → length block ≤ 16 }
    ensures { Gathers K.written K.faults out.old out.new gathered.old.items gathered.new.items
        (flat_map (block_comment problem.now) blocks.entry) result }
{
    let mut rest = blocks;
    while let Some(block) = rest.next() {
        gather_comment(problem, &block, gathered, out)?;
    }
    Ok(())
}

// Gathers the comment line of a block of at most 16 points.
fn gather_comment<K: Sink>(
    problem: &Problem,
    block: &Block,
    gathered: &mut LineBuf,
    out: &mut K,
) -> Result<(), WriteFault>
    requires { length block.now ≤ 16 }
    ensures { Gathers K.written K.faults out.old out.new gathered.old.items gathered.new.items
        (block_comment problem.now block.now) result }
{
    block_text_is_short(problem, block);
    make_room(gathered, out)?;
    put_text(gathered, b"# block ");
    put_block(gathered, problem, block);
    gathered.push(b'\n');
    Ok(())
}
