// The blocks of a family, each with the number that what it adds to a row is divided by.
//
// A short block is listed once for each of its different translates, and each of these is given by as many shifts as fix the block. That number
// is found once for each block, and not again for each row.
ghost use Rattle.std.specs.Prelude.{◌≡◌, ◌<◌, ◌≤◌, map, length, All, IfOk};
ghost use Rattle.df_group.specs.Subgroups.{IsSubgroup};
ghost use Rattle.df_lang.specs.Problems.{IsStated, point_count};
ghost use Rattle.df_lists.specs.NumberSets.{IsSet};
ghost use Rattle.df_family.specs.Developments.{develop_under, translates_under};
ghost use Rattle.df_mixed.specs.Origins.{divisor_of, counted, shares, IsDivisor};

use crate::OutOfMemory;
use crate::pairs::count_held;
use df_family::stabilizer_under;
use df_group::Subgroup;
use df_lang::{Kind, MOST_BLOCKS, Member, Problem};
use df_subsets::{Block, Point};
use std::alloc::Global;

/// A block, and the number that its count is divided by.
#[derive(Clone, Copy, Debug)]
pub struct Counted {
    pub block: Block,
    pub divisor: u64,
}

/// The blocks of the family, in order.
pub fn counted_blocks(
    alloc: Global,
    problem: &Problem,
    shifts: &Subgroup,
) -> Result<Vec<Counted>, OutOfMemory>
    requires { IsSubgroup problem.now.group shifts.now }
    ensures blocks { IfOk result (λ blocks. blocks.items ≡ map (counted problem.now shifts.now) problem.now.family) }
    ensures divisors { IfOk result (λ blocks. All IsDivisor blocks.items) }
    ensures few { IfOk result (λ blocks. length blocks.items ≤ 4096) }
    ensures rules { IsStated problem.now }
{
    let mut blocks = Vec::new(alloc);
    for member in &problem.family {
        blocks.push(Counted {
            block: member.block,
            divisor: divisor(problem, shifts, member),
        })?;
    }
    Ok(blocks)
}

// The number that the count of a member is divided by.
fn divisor(problem: &Problem, shifts: &Subgroup, member: &Member) -> u64
    requires subgroup { IsSubgroup problem.now.group shifts.now }
    requires rules { IsStated problem.now }
    requires set { IsSet (point_count problem.now) member.now.block }
    ensures divisor { result ≡ divisor_of problem.now shifts.now member.now.kind member.now.block }
    ensures some { 0 < result }
{
    match member.kind {
        Kind::Base => 1,
        Kind::Short => u64::from(stabilizer_under(problem, shifts, &member.block)),
    }
}

/// How many of these pairs the blocks hold, each block's number divided.
pub fn shares_of(blocks: &[Counted], origins: &[(Point, Point)]) -> u64
    requires few { length origins.now ≤ 128 }
    requires divisors { All IsDivisor blocks.now }
    requires blocks { length blocks.now ≤ 4096 }
    ensures { result ≡ shares origins.now blocks.now }
{
    let mut sum = 0;
    for counted in blocks {
        sum += count_held(&counted.block, origins) / counted.divisor;
    }
    sum
}

/// How many blocks the development by the shifts has.
pub fn block_count(problem: &Problem, shifts: &Subgroup) -> u64
    requires { IsSubgroup problem.now.group shifts.now }
    ensures count { result ≡ length (develop_under problem.now shifts.now) }
    ensures rules { IsStated problem.now }
{
    let mut count = 0;
    for member in &problem.family {
        count += translate_count(problem, shifts, member);
    }
    count
}

// How many translates of a member the development lists.
fn translate_count(problem: &Problem, shifts: &Subgroup, member: &Member) -> u64
    requires subgroup { IsSubgroup problem.now.group shifts.now }
    requires rules { IsStated problem.now }
    requires set { IsSet (point_count problem.now) member.now.block }
    ensures count { result ≡ length (translates_under problem.now shifts.now member.now) }
    ensures few { result ≤ 128 }
{
    u64::from(shifts.order()) / divisor(problem, shifts, member)
}
