// Counting how often each row of the difference table is found.
//
// A block of k points is counted by the differences of its ordered pairs of elements and by looks at its fixed points, so it costs at most k * k
// differences and 272 looks, whatever the order of the group. A short block is counted into a tally of its own, whose numbers are then divided
// by the number of translations that fix it: each of its translates is given by as many elements, so the division leaves no rest. The number of
// its translates falls off beside. A block adds at most 16,384 to a row, and the most blocks of a family keep each sum far below 2^40.
ghost use Rattle.std.specs.Prelude.{◌≡◌, ◌≢◌, ◌==◌, ℕ, ◌+◌, ◌*◌, ◌/◌, ◌%◌, ◌^◌, ◌<◌, ◌≤◌, length, filter, All, sum_by, count_by, slice_index, if◌then◌else◌};
ghost use Rattle.df_lists.specs.NumberSets.{has_member, IsSet};
ghost use Rattle.df_group.specs.Elements.{order_of, group_of, minus};
ghost use Rattle.df_lang.specs.Problems.{IsStated, point_count};
ghost use Rattle.df_lang.specs.Balance.{holds_both};
ghost use Rattle.df_family.specs.Developments.{translates};
ghost use Rattle.df_family.specs.Tables.{finite_points as finite_points_of, occurs, summand};
ghost use Rattle.df_family.specs.Tallies.{number_at, IsCell, HasNumber, IsWithin};

use crate::problem_pieces::{difference, fixed_point, order};
use crate::table::Row;
use crate::translate::stabilizer;
use arrayvec::ArrayVec;
use df_group::Elem;
use df_lang::{Kind, Member, Problem};
use df_subsets::{Block, Point};

/// How often each row is found, as far as blocks have been counted: by differences, by fixed points, and by two fixed points.
#[derive(Drop)]
pub struct Tally {
    differences: [u64; 128],
    singles: [u64; 16],
    pairs: [u64; 256],
}

impl Tally {
    /// A tally of nothing: each number is 0.
    pub fn new() -> Tally
        ensures { (row : Row) → number_at result row ≡ 0 }
    {
        Tally {
            differences: [0; 128],
            singles: [0; 16],
            pairs: [0; 256],
        }
    }

    /// The number of a row.
    pub fn number(&self, row: Row) -> u64
        requires { IsCell row }
        ensures { result ≡ number_at self.now row }
    {
        match row {
            Row::Diff(d) => self.differences[usize::from(d.0)],
            Row::WithFixed(i) => self.singles[usize::from(i - 1)],
            Row::TwoFixed(i, j) => self.pairs[16 * usize::from(i - 1) + usize::from(j - 1)],
        }
    }

    /// Counts a member of the family. The result is how many translates of it the development lists.
    pub fn count_member(&mut self, problem: &Problem, member: &Member) -> u64
        requires rules { IsStated problem.now }
        requires set { IsSet (point_count problem.now) member.now.block }
        requires room { IsWithin problem.now self.old (2 ^ 40) }
        ensures exact { (row : Row) → HasNumber problem.now row → number_at self.new row ≡ number_at self.old row + summand problem.now row member.now }
        ensures few { (row : Row) → summand problem.now row member.now ≤ 16384 }
        ensures translates { result ≡ length (translates problem.now member.now) }
        ensures few_translates { result ≤ 128 }
    {
        let order = u64::from(order(problem));
        match member.kind {
            Kind::Base => {
                self.count_block(problem, &member.block);
                order
            }
            Kind::Short => {
                let fixing = u64::from(stabilizer(problem, &member.block));
                let mut own = Tally::new();
                own.count_block(problem, &member.block);
                self.add_quotients(problem, &own, fixing);
                order / fixing
            }
        }
    }

    // Counts a block once.
    fn count_block(&mut self, problem: &Problem, block: &Block)
        requires rules { IsStated problem.now }
        requires room { IsWithin problem.now self.old (2 ^ 40) }
        ensures exact { (row : Row) → HasNumber problem.now row → number_at self.new row ≡ number_at self.old row + occurs problem.now row block.now }
        ensures few { (row : Row) → occurs problem.now row block.now ≤ 16384 }
    {
        let finite = finite_points(problem, block);
        count_differences(&mut self.differences, problem, finite.as_slice());
        count_singles(&mut self.singles, problem, block, finite.len() as u64);
        count_pairs(&mut self.pairs, problem, block);
    }

    // Adds the numbers of another tally, divided.
    fn add_quotients(&mut self, problem: &Problem, own: &Tally, divisor: u64)
        requires rules { IsStated problem.now }
        requires room { IsWithin problem.now self.old (2 ^ 40) }
        requires own_room { IsWithin problem.now own.now (2 ^ 40) }
        requires divisor { 0 < divisor }
        ensures { (row : Row) → HasNumber problem.now row → number_at self.new row ≡ number_at self.old row + number_at own.now row / divisor }
    {
        let order = usize::from(order(problem));
        let fixed = usize::from(problem.fixed);
        add_cells(&mut self.differences, &own.differences, order, divisor);
        add_cells(&mut self.singles, &own.singles, fixed, divisor);
        add_cells(&mut self.pairs, &own.pairs, 16 * fixed, divisor);
    }
}

// Adds the first `count` numbers, divided, to those beside them.
fn add_cells(cells: &mut [u64], own: &[u64], count: usize, divisor: u64)
    requires cells { count ≤ length cells.old }
    requires own { count ≤ length own.now }
    requires room { (c : ℕ) → c < count → slice_index cells.old c ≤ 2 ^ 40 }
    requires own_room { (c : ℕ) → c < count → slice_index own.now c ≤ 2 ^ 40 }
    requires divisor { 0 < divisor }
    ensures { (c : ℕ) → c < count → slice_index cells.new c ≡ slice_index cells.old c + slice_index own.now c / divisor }
{
    for c in 0..count {
        cells[c] += own[c] / divisor;
    }
}

// The points of the block that are elements.
fn finite_points(problem: &Problem, block: &Block) -> ArrayVec<Elem, 128>
    ensures list { result.items ≡ finite_points_of problem.now block.now }
    ensures below { All (λ a. a < order_of problem.now.group) result.items }
    ensures few { length result.items ≤ 128 }
{
    let order = order(problem);
    let points = block.points();
    let mut finite = ArrayVec::new();
    for p in points.as_slice() {
        if p.0 < order {
            finite.push(Elem(p.0));
        }
    }
    finite
}

// Counts the differences of all ordered pairs of these elements.
fn count_differences(cells: &mut [u64; 128], problem: &Problem, finite: &[Elem])
    requires rules { IsStated problem.now }
    requires below { All (λ a. a < order_of problem.now.group) finite.now }
    requires few { length finite.now ≤ 128 }
    requires room { (d : ℕ) → d < order_of problem.now.group → slice_index cells.old d ≤ 2 ^ 40 }
    ensures { (d : ℕ) → d < order_of problem.now.group → slice_index cells.new d
        ≡ slice_index cells.old d + sum_by (λ b. count_by (λ a. minus (group_of problem.now.group) a b == d) finite.now) finite.now }
{
    for b in finite {
        count_from(cells, problem, finite, *b);
    }
}

// Counts the differences of these elements from one of them.
fn count_from(cells: &mut [u64; 128], problem: &Problem, finite: &[Elem], b: Elem)
    requires rules { IsStated problem.now }
    requires below { All (λ a. a < order_of problem.now.group) finite.now }
    requires few { length finite.now ≤ 128 }
    requires b { b < order_of problem.now.group }
    requires room { (d : ℕ) → d < order_of problem.now.group → slice_index cells.old d ≤ 2 ^ 41 }
    ensures { (d : ℕ) → d < order_of problem.now.group → slice_index cells.new d ≡ slice_index cells.old d + count_by (λ a. minus (group_of problem.now.group) a b == d) finite.now }
{
    for a in finite {
        cells[usize::from(difference(problem, *a, b).0)] += 1;
    }
}

// Counts the elements with each fixed point of the block.
fn count_singles(cells: &mut [u64; 16], problem: &Problem, block: &Block, elements: u64)
    requires rules { IsStated problem.now }
    requires few { elements ≤ 128 }
    requires room { (i : ℕ) → i < problem.now.fixed → slice_index cells.old i ≤ 2 ^ 40 }
    ensures { (i : ℕ) → i < problem.now.fixed → slice_index cells.new i ≡ slice_index cells.old i + (if has_member block.now (order_of problem.now.group + i) then elements else 0) }
{
    for i in 0..problem.fixed {
        let held = block.has(fixed_point(problem, i + 1));
        cells[usize::from(i)] += if held { elements } else { 0 };
    }
}

// Counts each two fixed points of the block, as often as there are elements.
fn count_pairs(cells: &mut [u64; 256], problem: &Problem, block: &Block)
    requires rules { IsStated problem.now }
    requires room { (c : ℕ) → c < 16 * problem.now.fixed → slice_index cells.old c ≤ 2 ^ 40 }
    ensures { (c : ℕ) → c < 16 * problem.now.fixed → slice_index cells.new c
        ≡ slice_index cells.old c + (if holds_both block.now (order_of problem.now.group + c / 16) (order_of problem.now.group + c % 16) then order_of problem.now.group else 0) }
{
    for i in 0..problem.fixed {
        count_pairs_with(cells, problem, block, i);
    }
}

// Counts the fixed points of the block beside this one, from 0, where the block holds it.
fn count_pairs_with(cells: &mut [u64; 256], problem: &Problem, block: &Block, i: u8)
    requires rules { IsStated problem.now }
    requires i { i < problem.now.fixed }
    requires room { (j : ℕ) → j < 16 → slice_index cells.old (16 * i + j) ≤ 2 ^ 40 }
    ensures here { (j : ℕ) → j < 16 → slice_index cells.new (16 * i + j)
        ≡ slice_index cells.old (16 * i + j) + (if holds_both block.now (order_of problem.now.group + i) (order_of problem.now.group + j) then order_of problem.now.group else 0) }
    ensures elsewhere { (c : ℕ) → c / 16 ≢ i → slice_index cells.new c ≡ slice_index cells.old c }
{
    if !block.has(fixed_point(problem, i + 1)) {
        return;
    }
    for j in 0..16u8 {
        let held = block.has(fixed_point(problem, j + 1));
        cells[16 * usize::from(i) + usize::from(j)] += if held {
            u64::from(order(problem))
        } else {
            0
        };
    }
}
