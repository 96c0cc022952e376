// The difference table.
//
// A pair of points lies in as many blocks of the development as its row is found: a row for each difference of two elements, for each fixed
// point with an element, and for each two fixed points. So the rows, fewer than 264, stand for all pairs, and the table is filled by one look
// at each block of the family, with no block developed. The numbers are counted first, in a tally, and then put beside the targets.
ghost use Rattle.std.specs.Prelude.{◌≡◌, ◌≢◌, ◌+◌, ◌≤◌, ◌<◌, ◌++◌, [], ◌∷◌, map, length, position, All, IfOk, OnOk};
ghost use Rattle.df_group.specs.Elements.{order_of};
ghost use Rattle.df_lang.specs.Problems.{IsStated, point_count};
ghost use Rattle.df_lang.specs.Targets.{target as target_of};
ghost use Rattle.df_family.specs.Developments.{develop};
ghost use Rattle.df_family.specs.Tables.{differences, singles, pairs, pairs_of, stated as stated_of, entry, table, IsRow, entry_at, is_wrong};
ghost use Rattle.df_family.specs.Tallies.{number_at, HasNumber, IsCell, IsTallyOf};

use crate::OutOfMemory;
use crate::problem_pieces::{fixed, fixed_point, order};
use crate::tally::Tally;
use df_group::Elem;
use df_lang::{Problem, target};
use df_subsets::Point;
use std::alloc::Global;
use std::marker::Model;

/// A row of the difference table.
#[derive(Clone, Copy, Debug, PartialEq, Eq)]
pub enum Row {
    /// The differences that are this element, which isn't 0.
    Diff(Elem),
    /// The pairs of an element and this fixed point, numbered from 1.
    WithFixed(u8),
    /// The pair of these two fixed points, numbered from 1, the lower one first.
    TwoFixed(u8, u8),
}

/// A row with its numbers.
#[derive(Clone, Copy, Debug)]
pub struct Entry {
    pub row: Row,
    pub found: u64,
    pub stated: u64,
}

/// The difference table of a family, seen as the list of its rows with their numbers: how often each is found, and how often that is stated.
#[derive(Drop)]
pub struct Table {
    entries: Vec<Entry>,
}

/// A difference table, and how many blocks the development has.
#[derive(Drop)]
pub struct Counted {
    pub table: Table,
    pub blocks: u64,
}

impl Model for Table {
    ghost use Rattle.std.specs.Prelude.{List};
    ghost use Rattle.df_family.specs.declared.table.Entry.{Entry};

    ghost Value = { List Entry };

    ghost view = { λ t. t.entries.items };
}

impl Table {
    /// How many rows there are.
    pub fn len(&self) -> usize
        ensures { result ≡ length self.now }
    {
        self.entries.len()
    }

    /// The row at this place, from 0.
    pub fn row(&self, place: usize) -> Row
        requires { place < length self.now }
        ensures { result ≡ (entry_at self.now place).row }
    {
        self.entries[place].row
    }

    /// How often the row at this place is found.
    pub fn found(&self, place: usize) -> u64
        requires { place < length self.now }
        ensures { result ≡ (entry_at self.now place).found }
    {
        self.entries[place].found
    }

    /// How often the row at this place is stated.
    pub fn stated(&self, place: usize) -> u64
        requires { place < length self.now }
        ensures { result ≡ (entry_at self.now place).stated }
    {
        self.entries[place].stated
    }

    /// The first place whose two numbers differ. `None` exactly where none does.
    pub fn first_wrong(&self) -> Option<usize>
        ensures { result ≡ position is_wrong self.now }
    {
        self.entries.iter().position(|e| e.found != e.stated)
    }
}

/// The difference table of the problem's family: a row for each element but 0, for each fixed point and for each two fixed points.
/// The only error is out of memory.
#[tactic(auto, using(crate::proofs::TableRows::entries_are))]
pub fn difference_table(alloc: Global, problem: &Problem) -> Result<Table, OutOfMemory>
    ensures table { IfOk result (λ t. t ≡ table problem.now) }
    ensures rows { All (λ e. IsRow problem.now e.row) (table problem.now) }
{
    let counted = counted_table(alloc, problem)?;
    Ok(counted.table)
}

/// The difference table of the problem's family, and how many blocks its development has. The only error is out of memory.
pub fn counted_table(alloc: Global, problem: &Problem) -> Result<Counted, OutOfMemory>
    ensures table { IfOk result (λ c. c.table ≡ table problem.now) }
    ensures blocks { IfOk result (λ c. c.blocks ≡ length (develop problem.now)) }
    ensures rules { IsStated problem.now }
{
    let mut tally = Tally::new();
    let blocks = count_family(&mut tally, problem);
    let mut entries = Vec::new(alloc);
    push_differences(&mut entries, problem, &tally)?;
    push_singles(&mut entries, problem, &tally)?;
    push_pairs(&mut entries, problem, &tally)?;
    Ok(Counted {
        table: Table { entries },
        blocks,
    })
}

// Counts how often each row is found in the family, and how many blocks its development has.
fn count_family(tally: &mut Tally, problem: &Problem) -> u64
    requires { (row : Row) → number_at tally.old row ≡ 0 }
    ensures tally { IsTallyOf problem.now tally.new }
    ensures blocks { result ≡ length (develop problem.now) }
    ensures rules { IsStated problem.now }
{
    let mut blocks = 0;
    for member in &problem.family {
        blocks += tally.count_member(problem, member);
    }
    blocks
}

fn push_differences(
    entries: &mut Vec<Entry>,
    problem: &Problem,
    tally: &Tally,
) -> Result<(), OutOfMemory>
    requires { IsTallyOf problem.now tally.now }
    ensures { OnOk result (entries.new.items ≡ entries.old.items ++ map (entry problem.now) (differences problem.now)) }
{
    for d in 1..order(problem) {
        push_row(
            entries,
            problem,
            tally,
            &Row::Diff(Elem(d)),
            Point(0),
            Point(d),
        )?;
    }
    Ok(())
}

fn push_singles(
    entries: &mut Vec<Entry>,
    problem: &Problem,
    tally: &Tally,
) -> Result<(), OutOfMemory>
    requires { IsTallyOf problem.now tally.now }
    ensures { OnOk result (entries.new.items ≡ entries.old.items ++ map (entry problem.now) (singles problem.now)) }
{
    for i in 1..fixed(problem) + 1 {
        push_row(
            entries,
            problem,
            tally,
            &Row::WithFixed(i),
            Point(0),
            fixed_point(problem, i),
        )?;
    }
    Ok(())
}

fn push_pairs(entries: &mut Vec<Entry>, problem: &Problem, tally: &Tally) -> Result<(), OutOfMemory>
    requires { IsTallyOf problem.now tally.now }
    ensures { OnOk result (entries.new.items ≡ entries.old.items ++ map (entry problem.now) (pairs problem.now)) }
{
    for i in 1..fixed(problem) + 1 {
        push_pairs_of(entries, problem, tally, i)?;
    }
    Ok(())
}

// The rows of this fixed point and a later one.
fn push_pairs_of(
    entries: &mut Vec<Entry>,
    problem: &Problem,
    tally: &Tally,
    i: u8,
) -> Result<(), OutOfMemory>
    requires tally { IsTallyOf problem.now tally.now }
    requires some { 0 < i }
    requires fixed { i ≤ problem.now.fixed }
    requires few { problem.now.fixed ≤ 16 }
    ensures { OnOk result (entries.new.items ≡ entries.old.items ++ map (entry problem.now) (pairs_of problem.now i)) }
{
    let first = fixed_point(problem, i);
    for j in i + 1..fixed(problem) + 1 {
        push_row(
            entries,
            problem,
            tally,
            &Row::TwoFixed(i, j),
            first,
            fixed_point(problem, j),
        )?;
    }
    Ok(())
}

// A row, and a pair of points of that kind.
fn push_row(
    entries: &mut Vec<Entry>,
    problem: &Problem,
    tally: &Tally,
    row: &Row,
    p: Point,
    q: Point,
) -> Result<(), OutOfMemory>
    requires tally { IsTallyOf problem.now tally.now }
    requires cell { IsCell row.now }
    requires number { HasNumber problem.now row.now }
    requires apart { p ≢ q }
    requires p { p < point_count problem.now }
    requires q { q < point_count problem.now }
    requires target { target_of problem.now p q ≡ stated_of problem.now row.now }
    ensures { OnOk result (entries.new.items ≡ entries.old.items ++ entry problem.now row.now ∷ []) }
{
    entries.push(Entry {
        row: *row,
        found: tally.number(*row),
        stated: u64::from(target(problem, p, q)),
    })?;
    Ok(())
}
