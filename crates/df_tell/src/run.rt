// The text of a run: a dossier, whose designs are printed as the search comes to them.
// A run without a log asks for one design after another, so that the search may leap over the
// entries between; a run with a log asks for each entry. Both write what is defined of the run's
// steps: one loop goes through both, and a contract says which steps a round passed and what was
// written of them (specs/RunSteps).
ghost use Rattle.std.specs.Prelude.{◌≡◌, ◌≤◌, ◌<◌, ◌+◌, ◌^◌, ◌++◌, ◌∷◌, [], List, Bool, true, false, decimal, length, Some, IfOk, IsSome, IsNone};
ghost use Rattle.std.specs.List.{flat_map};
ghost use Rattle.arrayvec.specs.ArrayVec.{array_vec_len};
ghost use Rattle.df_io.specs.Joined.{spaced};
ghost use Rattle.df_io.specs.Writing.{Writes};
ghost use Rattle.df_walk.specs.Solutions.{chosen_columns};
ghost use Rattle.df_runs.specs.Runs.{run_of};
ghost use Rattle.df_kramer_mesner.specs.OrbitSystems.{orbit_system};
ghost use Rattle.df_dossier.specs.Paths.{end_tokens};
ghost use Rattle.df_tell.specs.Gathered.{Gathers};
ghost use Rattle.df_tell.specs.declared.run.RunEnd.TheVariants.{Spent};
ghost use Rattle.df_tell.specs.Run.{head_text, source_text, from_text, path_end, step_lines, end_text, run_text, run_end, as_written, MayRun};
ghost use Rattle.df_tell.specs.RunSteps.{columns_text, column_text, IsOf, AreCounted, run_left, Tells, stop_at, EndsOrGoesOn, IsRan};

use crate::canonical::write_canonical;
use crate::counts::fill_count;
use crate::gathered::write_gathered;
use crate::run_lines::{
    gather_branch, gather_design, gather_over, gather_residue, gather_settled, gather_under,
};
use df_design::{Designs, Event, PathView, Rules, Turn};
use df_dossier::{put_end, put_path_column, put_path_start};
use df_io::{LineBuf, Sink, WriteFault, write_all};
use df_lang::{Problem, line_count};
use df_steps::Steps;
use std::sync::ledger::Ledger;

/// What a dossier shows beside its designs.
#[derive(Clone, Copy, Debug, PartialEq, Eq)]
pub struct Shown {
    /// A line for each entry.
    pub log: bool,
    /// After each design line a comment line for each block of the design.
    pub blocks: bool,
}

/// How a run ended.
#[derive(Clone, Copy, Debug, PartialEq, Eq)]
pub enum RunEnd {
    /// No entry remains.
    Finished,
    /// A node remains that the budget doesn't allow.
    Spent,
}

/// What was found in a run so far, and what it may still visit.
#[derive(Drop)]
pub(crate) struct Counts {
    /// How many designs were found.
    pub(crate) designs: u64,
    /// How many nodes the budget still allows.
    pub(crate) left: u64,
}

/// What a run was, once it ended.
#[derive(Drop)]
pub(crate) struct Ran {
    pub(crate) end: RunEnd,
    pub(crate) designs: u64,
    pub(crate) nodes: u64,
}

/// Writes the text of the run of this budget from where the search stands, and says how it ended.
/// `designs` are those of the problem and may be asked for their place; they go by the rules.
/// It takes no memory.
pub fn write_run<K: Sink, L: Ledger>(
    problem: &Problem,
    designs: &mut Designs<'_>,
    rules: Rules,
    budget: u64,
    shown: Shown,
    out: &mut K,
    steps: &mut Steps<L>,
) -> Result<RunEnd, WriteFault>
    requires { MayRun rules problem.now designs.old }
    ensures written { (p : List Bool) → designs.old.search.place ≡ Some p
        → Writes K.written K.faults out.old out.new
        (run_text rules problem.now shown p (run_of rules (orbit_system problem.now) p budget))
        (as_written result) }
    ensures end { (p : List Bool) → designs.old.search.place ≡ Some p → IfOk result (λ end.
        end ≡ run_end (run_of rules (orbit_system problem.now) p budget).stop) }
{
    let mut line = LineBuf::new();
    write_start(problem, designs.place(), rules, &mut line, out)?;
    let ran = write_steps(problem, designs, budget, shown, &mut line, out, steps)?;
    let end = ran.end;
    write_end(designs, ran, &mut line, out)?;
    Ok(end)
}

// Writes the head, the source lines, and the path where the run begins.
fn write_start<K: Sink>(
    problem: &Problem,
    place: PathView<'_>,
    rules: Rules,
    line: &mut LineBuf,
    out: &mut K,
) -> Result<(), WriteFault>
    requires { place.length ≡ length place.decisions.now }
    ensures { Writes K.written K.faults out.old out.new
        (head_text rules
        ++ (source_text problem.now ++ from_text place.entry.decisions.now)) result }
{
    write_all(out, head(rules))?;
    write_source(problem, line, out)?;
    write_all(out, b"from")?;
    write_path(place, line, out)
}

// The head line of a dossier whose search goes by the rules.
fn head(rules: Rules) -> &'static [u8]
    ensures { result.now ≡ head_text rules }
{
    match rules {
        Rules::Plain => b"dossier 1\n",
        Rules::Divisor => b"dossier 2\n",
    }
}

// Writes the number of canonical lines, and the lines.
fn write_source<K: Sink>(
    problem: &Problem,
    line: &mut LineBuf,
    out: &mut K,
) -> Result<(), WriteFault>
    ensures { Writes K.written K.faults out.old out.new (source_text problem.now) result }
{
    fill_count(line, b"source ", line_count(problem) as u64);
    write_all(out, line.as_slice())?;
    write_canonical(problem, out)
}

// Writes a path as the end of a line, in pieces, since it may have many yes columns.
fn write_path<K: Sink>(
    path: PathView<'_>,
    line: &mut LineBuf,
    out: &mut K,
) -> Result<(), WriteFault>
    requires { path.length ≡ length path.decisions.now }
    ensures { Writes K.written K.faults out.old out.new (path_end path.entry.decisions.now) result }
{
    fill_length(line, path.length);
    write_all(out, line.as_slice())?;
    write_columns(path.length, path.decisions, line, out)?;
    write_all(out, b"\n")
}

// Fills the buffer with the length of a path.
#[tactic(auto, using(df_io::proofs::NumbersBack::decimal_short))]
fn fill_length(line: &mut LineBuf, columns: u32)
    ensures { line.new.items ≡ 32 ∷ decimal columns }
{
    line.clear();
    put_path_start(line, columns);
}

// Writes the yes columns of a path.
fn write_columns<K: Sink>(
    columns: u32,
    decisions: &[bool],
    line: &mut LineBuf,
    out: &mut K,
) -> Result<(), WriteFault>
    requires { columns ≡ length decisions.now }
    ensures { Writes K.written K.faults out.old out.new
        (columns_text (chosen_columns decisions.now)) result }
{
    for column in 0..columns {
        write_column(decisions[column as usize], column, line, out)?;
    }
    Ok(())
}

// Writes a column of a path, if it is a yes column.
fn write_column<K: Sink>(
    chosen: bool,
    column: u32,
    line: &mut LineBuf,
    out: &mut K,
) -> Result<(), WriteFault>
    ensures { Writes K.written K.faults out.old out.new (column_text chosen column) result }
{
    if chosen {
        fill_column(line, column);
        write_all(out, line.as_slice())
    } else {
        Ok(())
    }
}

// Fills the buffer with a yes column of a path.
#[tactic(auto, using(df_io::proofs::NumbersBack::decimal_short))]
fn fill_column(line: &mut LineBuf, column: u32)
    ensures { line.new.items ≡ 32 ∷ decimal column }
{
    line.clear();
    put_path_column(line, column);
}

// Passes the steps that the budget allows, and writes what is printed of each.
fn write_steps<K: Sink, L: Ledger>(
    problem: &Problem,
    designs: &mut Designs<'_>,
    budget: u64,
    shown: Shown,
    line: &mut LineBuf,
    out: &mut K,
    steps: &mut Steps<L>,
) -> Result<Ran, WriteFault>
    requires search { IsOf problem.now designs.old }
    requires counted { AreCounted designs.old.search }
    ensures written { Writes K.written K.faults out.old out.new
        (flat_map (step_lines shown problem.now) (run_left designs.old.search budget).taken)
        (as_written result) }
    ensures ran { IfOk result
        (IsRan problem.now (run_left designs.old.search budget) designs.new.search) }
{
    line.clear();
    let ran = gather_steps(problem, designs, budget, shown, line, out, steps)?;
    write_gathered(line, out)?;
    Ok(ran)
}

// The same, but that the last lines may still be gathered.
fn gather_steps<K: Sink, L: Ledger>(
    problem: &Problem,
    designs: &mut Designs<'_>,
    budget: u64,
    shown: Shown,
    gathered: &mut LineBuf,
    out: &mut K,
    steps: &mut Steps<L>,
) -> Result<Ran, WriteFault>
    requires search { IsOf problem.now designs.old }
    requires counted { AreCounted designs.old.search }
    ensures gathers { Gathers K.written K.faults out.old out.new
        gathered.old.items gathered.new.items
        (flat_map (step_lines shown problem.now) (run_left designs.old.search budget).taken)
        (as_written result) }
    ensures ran { IfOk result
        (IsRan problem.now (run_left designs.old.search budget) designs.new.search) }
{
    let mut counts = Counts {
        designs: 0,
        left: budget,
    };
    loop {
        let end = gather_step(problem, designs, &mut counts, shown, gathered, out, steps)?;
        if let Some(end) = end {
            return Ok(Ran {
                end,
                designs: counts.designs,
                nodes: budget - counts.left,
            });
        }
    }
}

// Passes the next step, or without a log all steps up to the next design, and gathers what is
// printed of them; or says how the run ended, where the budget allows no step more of which
// anything is printed.
fn gather_step<K: Sink, L: Ledger>(
    problem: &Problem,
    designs: &mut Designs<'_>,
    counts: &mut Counts,
    shown: Shown,
    gathered: &mut LineBuf,
    out: &mut K,
    steps: &mut Steps<L>,
) -> Result<Option<RunEnd>, WriteFault>
    requires search { IsOf problem.now designs.old }
    requires few { counts.old.designs + counts.old.left < 2 ^ 64 }
    ensures tells { Tells K.written K.faults shown problem.now designs.old designs.new
        counts.old counts.new out.old out.new gathered.old.items gathered.new.items
        (as_written result) }
    ensures ends { IfOk result
        (EndsOrGoesOn designs.old.search designs.new.search counts.new.left) }
{
    if shown.log {
        gather_entry_step(problem, designs, counts, shown, gathered, out, steps)
    } else {
        gather_design_step(problem, designs, counts, shown, gathered, out, steps)
    }
}

// The same with a log: one entry, with its design.
fn gather_entry_step<K: Sink, L: Ledger>(
    problem: &Problem,
    designs: &mut Designs<'_>,
    counts: &mut Counts,
    shown: Shown,
    gathered: &mut LineBuf,
    out: &mut K,
    steps: &mut Steps<L>,
) -> Result<Option<RunEnd>, WriteFault>
    requires search { IsOf problem.now designs.old }
    requires few { counts.old.designs + counts.old.left < 2 ^ 64 }
    requires log { shown.log ≡ true }
    ensures tells { Tells K.written K.faults shown problem.now designs.old designs.new
        counts.old counts.new out.old out.new gathered.old.items gathered.new.items
        (as_written result) }
    ensures ends { IfOk result
        (EndsOrGoesOn designs.old.search designs.new.search counts.new.left) }
{
    match designs.advance(&mut counts.left, steps) {
        Event::Branch(column) => goes_on(gather_branch(column, gathered, out)),
        Event::Over(row) => goes_on(gather_over(row, gathered, out)),
        Event::Under(row) => goes_on(gather_under(row, gathered, out)),
        Event::Residue(row, divisor) => goes_on(gather_residue(row, divisor, gathered, out)),
        Event::Solution => {
            counts.designs += 1;
            goes_on(gather_settled(problem, designs, shown, gathered, out))
        }
        Event::Spent => Ok(Some(RunEnd::Spent)),
        Event::Finished => Ok(Some(RunEnd::Finished)),
    }
}

// The same without a log: all steps up to the next design.
fn gather_design_step<K: Sink, L: Ledger>(
    problem: &Problem,
    designs: &mut Designs<'_>,
    counts: &mut Counts,
    shown: Shown,
    gathered: &mut LineBuf,
    out: &mut K,
    steps: &mut Steps<L>,
) -> Result<Option<RunEnd>, WriteFault>
    requires search { IsOf problem.now designs.old }
    requires few { counts.old.designs + counts.old.left < 2 ^ 64 }
    requires silent { shown.log ≡ false }
    ensures tells { Tells K.written K.faults shown problem.now designs.old designs.new
        counts.old counts.new out.old out.new gathered.old.items gathered.new.items
        (as_written result) }
    ensures ends { IfOk result
        (EndsOrGoesOn designs.old.search designs.new.search counts.new.left) }
{
    match designs.next(&mut counts.left, steps) {
        Turn::Design => {
            counts.designs += 1;
            goes_on(gather_design(problem, designs, shown, gathered, out))
        }
        Turn::Spent => Ok(Some(RunEnd::Spent)),
        Turn::Finished => Ok(Some(RunEnd::Finished)),
    }
}

// The answer of a step after which the run may go on.
fn goes_on(written: Result<(), WriteFault>) -> Result<Option<RunEnd>, WriteFault>
    ensures same { as_written result ≡ written }
    ensures none { IfOk result IsNone }
{
    match written {
        Ok(()) => Ok(None),
        Err(fault) => Err(fault),
    }
}

// Writes the end line. Of a spent run it ends with the path where the search stands.
fn write_end<K: Sink>(
    designs: &Designs<'_>,
    ran: Ran,
    line: &mut LineBuf,
    out: &mut K,
) -> Result<(), WriteFault>
    requires { ran.end ≡ Spent → IsSome designs.now.search.place }
    ensures { Writes K.written K.faults out.old out.new
        (end_text ran.designs ran.nodes (stop_at ran.end designs.now.search)) result }
{
    match ran.end {
        RunEnd::Finished => {
            fill_finished(line, ran.designs, ran.nodes);
            write_all(out, line.as_slice())
        }
        RunEnd::Spent => {
            let place = designs.place();
            fill_end(line, false, ran.designs, ran.nodes);
            write_all(out, line.as_slice())?;
            write_path(place, line, out)
        }
    }
}

// Fills the buffer with the end line of a finished run.
fn fill_finished(line: &mut LineBuf, designs: u64, nodes: u64)
    ensures { line.new.items ≡ spaced (end_tokens true designs nodes) ++ 10 ∷ [] }
{
    fill_end(line, true, designs, nodes);
    line.push(b'\n');
}

// Fills the buffer with the end line, of a spent run without its path.
fn fill_end(line: &mut LineBuf, finished: bool, designs: u64, nodes: u64)
    ensures text { line.new.items ≡ spaced (end_tokens finished designs nodes) }
    ensures short { array_vec_len line.new ≤ 100 }
{
    line.clear();
    put_end(line, finished, designs, nodes);
}
