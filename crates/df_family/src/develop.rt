// The development of a family, one block after another, by the elements of a subgroup: by all of them, for a difference family.
//
// The translates of a base block are all listed, repeats kept. Of a short block the translate by g is listed only where no lower shift h gives
// the same one, which is where the difference g - h fixes the block. So the shifts that fix a block are found once, when the development
// comes to it, in one translate for each shift; after that each shift costs at most g differences and looks at a set, and no translate is
// kept or compared.
ghost use Rattle.std.specs.Prelude.{◌≡◌, ◌+◌, ◌-◌, ◌≤◌, ◌<◌, ◌∷◌, [], true, drop, not, find, length, All, IfSome, MatchOption};
ghost use Rattle.std.specs.List.{range_with_len};
ghost use Rattle.df_lists.specs.NumberSets.{has_member, IsSet};
ghost use Rattle.df_lists.specs.LeastMembers.{any_below};
ghost use Rattle.df_group.specs.Elements.{order_of, group_of, minus};
ghost use Rattle.df_group.specs.Subgroups.{IsSubgroup};
ghost use Rattle.df_lang.specs.Problems.{IsBlock, IsStated, point_count};
ghost use Rattle.df_family.specs.Developments.{develop, develop_under, is_listed as is_listed_by};
ghost use Rattle.df_family.specs.Remainders.{is_listed_shift as is_listed_shift_by, IsFixing, IsFixingOf};

use crate::problem_pieces::{difference, member_at, order};
use crate::translate::{fixing, translated};
use df_group::{Elem, Subgroup};
use df_lang::{Kind, Member, Problem};
use df_sets::NumberSet;
use df_subsets::Block;
use std::marker::Model;

/// What remains of the development of a problem's family, seen as the list of its blocks.
#[derive(Drop)]
pub struct Develop<'a> {
    problem: &'a Problem,
    shifts: Subgroup,
    member: usize,
    shift: u8,
    fixing: NumberSet,
}

impl<'a> Model for Develop<'a> {
    ghost use Rattle.std.specs.Prelude.{List, ℕ, drop};
    ghost use Rattle.df_family.specs.Remainders.{rest_from, IsPlace};

    ghost Value = { List (List ℕ) };

    ghost view = { λ d. rest_from d.problem.now d.shifts (drop d.member d.problem.now.family) d.shift };

    ghost invariant = { λ d. IsPlace d.problem.now d.shifts d.member d.shift d.fixing };
}

impl<'a> Develop<'a> {
    /// The whole development: of each block of the family, in the order of the source, its translates by the elements of the group, in their order.
    /// Of a short block each translate comes once, where it comes first.
    pub fn new(problem: &'a Problem) -> Develop<'a>
        ensures whole { result ≡ develop problem.now }
        ensures blocks { All (IsBlock (point_count problem.now) problem.now.sizes) (develop problem.now) }
        ensures sizes { All (λ block. length block ≤ 16) (develop problem.now) }
    {
        Develop::under(problem, Subgroup::whole(&problem.shape))
    }

    /// The whole development by the elements of a subgroup of the group, in their order, in place of all elements.
    pub fn under(problem: &'a Problem, shifts: Subgroup) -> Develop<'a>
        requires { IsSubgroup problem.now.group shifts }
        ensures whole { result ≡ develop_under problem.now shifts }
        ensures blocks { All (IsBlock (point_count problem.now) problem.now.sizes) (develop_under problem.now shifts) }
        ensures sizes { All (λ block. length block ≤ 16) (develop_under problem.now shifts) }
    {
        let fixing = fixing_of(problem, &shifts, 0);
        Develop {
            problem,
            shifts,
            member: 0,
            shift: 0,
            fixing,
        }
    }

    /// The first block of what remains, which it leaves. `None` exactly where nothing remains, and then at each later call.
    pub fn next(&mut self) -> Option<Block>
        ensures { MatchOption result ((self.old ≡ []) × (self.new ≡ [])) (λ block. self.old ≡ block ∷ self.new) }
    {
        let problem = self.problem;
        let member = member_at(problem, self.member)?;
        let block = translated(problem, &member.block, Elem(self.shift));
        match next_listed(problem, &self.shifts, &member, &self.fixing, self.shift + 1) {
            Some(shift) => self.shift = shift.0,
            None => {
                self.member += 1;
                self.shift = 0;
                self.fixing = fixing_of(problem, &self.shifts, self.member);
            }
        }
        Some(block)
    }
}

// The shifts that fix the block of this member, where it is short.
fn fixing_of(problem: &Problem, shifts: &Subgroup, member: usize) -> NumberSet
    requires { IsSubgroup problem.now.group shifts.now }
    ensures fixing { IsFixingOf problem.now shifts.now (drop member problem.now.family) result }
    ensures rules { IsStated problem.now }
{
    match member_at(problem, member) {
        None => NumberSet::empty(),
        Some(member) => match member.kind {
            Kind::Base => NumberSet::empty(),
            Kind::Short => fixing(problem, shifts, &member.block),
        },
    }
}

// The first shift from this number on by which the member's translate is listed.
fn next_listed(
    problem: &Problem,
    shifts: &Subgroup,
    member: &Member,
    fixing: &NumberSet,
    from: u8,
) -> Option<Elem>
    requires from { from ≤ order_of problem.now.group }
    requires rules { IsStated problem.now }
    requires subgroup { IsSubgroup problem.now.group shifts.now }
    requires set { IsSet (point_count problem.now) member.now.block }
    requires fixing { IsFixing problem.now shifts.now member.now.kind member.now.block fixing.now }
    ensures { result ≡ find (is_listed_shift_by problem.now shifts.now member.now.kind member.now.block) (range_with_len from (order_of problem.now.group - from)) }
{
    for g in from..order(problem) {
        if is_listed_shift(problem, shifts, member, fixing, Elem(g)) {
            return Some(Elem(g));
        }
    }
    None
}

// Whether g is a shift and the member's translate by it is listed.
fn is_listed_shift(
    problem: &Problem,
    shifts: &Subgroup,
    member: &Member,
    fixing: &NumberSet,
    g: Elem,
) -> bool
    requires below { g < order_of problem.now.group }
    requires rules { IsStated problem.now }
    requires subgroup { IsSubgroup problem.now.group shifts.now }
    requires set { IsSet (point_count problem.now) member.now.block }
    requires fixing { IsFixing problem.now shifts.now member.now.kind member.now.block fixing.now }
    ensures { result ≡ is_listed_shift_by problem.now shifts.now member.now.kind member.now.block g }
{
    shifts.has(g) && is_listed(problem, shifts, member, fixing, g)
}

// Whether the member's translate by a shift g is listed.
fn is_listed(
    problem: &Problem,
    shifts: &Subgroup,
    member: &Member,
    fixing: &NumberSet,
    g: Elem,
) -> bool
    requires below { g < order_of problem.now.group }
    requires shift { has_member shifts.now g ≡ true }
    requires rules { IsStated problem.now }
    requires subgroup { IsSubgroup problem.now.group shifts.now }
    requires set { IsSet (point_count problem.now) member.now.block }
    requires fixing { IsFixing problem.now shifts.now member.now.kind member.now.block fixing.now }
    ensures { result ≡ is_listed_by problem.now shifts.now member.now.kind member.now.block g }
{
    match member.kind {
        Kind::Base => true,
        Kind::Short => is_first(problem, fixing, g),
    }
}

// Whether the difference of g from each lower element isn't one of these.
fn is_first(problem: &Problem, fixing: &NumberSet, g: Elem) -> bool
    requires { g < order_of problem.now.group }
    ensures { result ≡ not (any_below (λ h. has_member fixing.now (minus (group_of problem.now.group) g h)) g) }
{
    for h in 0..g.0 {
        if fixing.has(difference(problem, g, Elem(h)).0) {
            return false;
        }
    }
    true
}
