// The walk through the tree of paths, with the place in it as one path and a state: at the path, below it or past it.
// It goes back late, with the call that asks for the next entry: so the answer's path stays held, as its solution and its place, and a call costs at most three decisions more than its path grows shorter.
// A yes that brings a row over its target is told without being taken, by the cells of its column: most of the entries of a log are such ones.
// A call of `advance` passes one entry, and gives it. `next` passes entries up to a solution or up to a node that the budget doesn't allow: from a node that branches it leaps by no's over the nodes whose yes is over at once, each with that yes, and passes a path that is given up without a look for the row.
ghost use Rattle.std.specs.Prelude.{◌≡◌, ℕ, ◌+◌, ◌-◌, ◌*◌, ◌<◌, ◌≤◌, [], ◌∷◌, ◌++◌, length, Some, None, IfOk, IfErr, IsSome, IsNone, IfSome, Bool, true, false, ◌==◌};
ghost use Rattle.std.specs.List.{list_any};
ghost use Rattle.std.specs.List.Sorted.{IsStrictlyIncreasing};
ghost use Rattle.df_walk.specs.Systems.{widest};
ghost use Rattle.df_walk.specs.Solutions.{solutions};
ghost use Rattle.df_walk.specs.Walks.{walk};
ghost use Rattle.df_walk.specs.Paths.{path_of, settled_before};
ghost use Rattle.df_walk.specs.Remains.{turned};
ghost use Rattle.df_search.specs.HeldPaths.{TurnsTo};
ghost use Rattle.df_search.specs.Resumptions.{Resumes, Refuses, IsFirstSettled, why_of};
ghost use Rattle.df_search.specs.Searches.{begun, stopped, ended, StandsBefore, rest_solutions, Advances, IsAnswer, Passes, PassesLeaf, PassesOver, Turns, calls_of, next_path_of, IsReady, Answers};

use crate::held_path::{HeldPath, Verdict};
use crate::{Event, OutOfMemory, PathView, ResumeError, Turn, Why};
use df_steps::Steps;
use df_system::{Path, System};
use df_walk::Rules;
use std::alloc::Global;
use std::marker::Model;
use std::sync::ledger::Ledger;

/// Where the next entry stands: at the path, below it, past it, or nowhere.
#[derive(Clone, Copy)]
enum State {
    Here,
    Below,
    // past the path with yes for the next column, which is over: the column isn't taken for that
    Tried,
    Past,
    // past a path that was answered as a solution
    Solved,
    Done,
}

/// A search through the paths of a system. It holds one path, and takes no memory once it is made.
///
/// Contracts see the entries of the walk that remain, each with its path, and what the last answer was about: its path, the place where the walk goes on, and the solution.
#[derive(Drop)]
pub struct Search<'m> {
    held: HeldPath<'m>,
    state: State,
}

impl<'m> Model for Search<'m> {
    ghost use Rattle.df_search.specs.Searches.{Searching, search_of, IsOnWalk};

    ghost Value = { Searching };

    ghost view = { λ s. search_of s.state s.held.rules s.held };

    ghost invariant = { λ s. IsOnWalk s.held.rules s.held s.state };
}

/// Comes to the path at which the walk goes on. False, with the empty path, where it doesn't.
fn go_on<L: Ledger>(state: State, held: &mut HeldPath<'_>, steps: &mut Steps<L>) -> bool
    requires { IsReady state held.old.system held.old.path }
    ensures comes { TurnsTo (next_path_of state held.old.path) result held.new.path }
    ensures system { held.new.system ≡ held.old.system }
    ensures rules { held.new.rules ≡ held.old.rules }
    ensures rises { steps.old ≤ steps.new }
    ensures cost { steps.new + widest held.old.system.columns * length held.new.path ≤ steps.old + widest held.old.system.columns * (length held.old.path + 2) }
{
    match state {
        State::Here => true,
        State::Below => {
            held.extend(true, steps);
            true
        }
        State::Tried => {
            held.extend(false, steps);
            true
        }
        State::Past | State::Solved => held.turn(steps),
        State::Done => false,
    }
}

/// Lowers the budget by 1. False where it is 0.
fn pay(budget: &mut u64) -> bool
    ensures paid { result ≡ true → budget.old ≡ budget.new + 1 }
    ensures spent { result ≡ false → (budget.old ≡ 0) × (budget.new ≡ 0) }
{
    if *budget == 0 {
        return false;
    }
    *budget -= 1;
    true
}

/// What a verdict on a path of this many columns answers, and where the search is then.
fn answer_of(verdict: Verdict, length: u32, budget: &mut u64) -> (State, Event)
    ensures { Answers verdict length budget.old result.0 result.1 budget.new }
{
    match verdict {
        Verdict::Over(row) => (State::Past, Event::Over(row)),
        Verdict::Under(row) => (State::Past, Event::Under(row)),
        Verdict::Residue(row, divisor) => (State::Past, Event::Residue(row, divisor)),
        Verdict::Settled => {
            if pay(budget) {
                (State::Solved, Event::Solution)
            } else {
                (State::Here, Event::Spent)
            }
        }
        Verdict::Branch => {
            if pay(budget) {
                (State::Below, Event::Branch(length))
            } else {
                (State::Here, Event::Spent)
            }
        }
    }
}

/// Why a path of this verdict isn't a node, if it isn't.
fn why_not(verdict: Verdict) -> Option<Why>
    ensures { result ≡ why_of verdict }
{
    match verdict {
        Verdict::Over(row) => Some(Why::Over(row)),
        Verdict::Under(row) => Some(Why::Under(row)),
        Verdict::Residue(row, _) => Some(Why::Residue(row)),
        Verdict::Settled | Verdict::Branch => None,
    }
}

/// Whether a column is among the chosen ones, which increase.
fn is_chosen(chosen: &[u32], column: u32) -> bool
    requires { IsStrictlyIncreasing chosen.now }
    ensures { result ≡ list_any (λ c. c == column) chosen.now }
{
    match chosen.binary_search(&column) {
        Ok(_) => true,
        Err(_) => false,
    }
}

/// Decides the columns of a path, one after another. It stops before a proper prefix that is settled, and tells its length.
fn follow<L: Ledger>(held: &mut HeldPath<'_>, path: &Path, steps: &mut Steps<L>) -> Option<u32>
    requires empty { held.old.path ≡ [] }
    requires fits { path.now.size ≤ length held.old.system.columns }
    ensures whole { IsNone result → (held.new.path ≡ path_of path.now) × (settled_before held.old.system (path_of path.now) ≡ false) }
    ensures settled { IfSome result (IsFirstSettled held.old.system (path_of path.now)) }
    ensures system { held.new.system ≡ held.old.system }
    ensures rules { held.new.rules ≡ held.old.rules }
    ensures rises { steps.old ≤ steps.new }
    ensures cost { steps.new ≤ steps.old + widest held.old.system.columns * path.now.size }
{
    let chosen = path.chosen();
    for column in 0..path.length() {
        if held.is_settled() {
            return Some(column);
        }
        held.extend(is_chosen(chosen, column), steps);
    }
    None
}

impl<'m> Search<'m> {
    /// A search at the empty path: the whole walk remains, and so do all solutions. It may be asked for its place.
    pub fn new<L: Ledger>(
        alloc: Global,
        system: &'m System,
        rules: Rules,
        steps: &mut Steps<L>,
    ) -> Result<Search<'m>, OutOfMemory>
        ensures value { IfOk result (λ s. s ≡ begun system.now rules [] (walk rules system.now [])) }
        ensures stands { IfOk result (λ s. StandsBefore s []) }
        ensures whole { IfOk result (λ s. rest_solutions s ≡ solutions system.now) }
        ensures cost { steps.new ≡ steps.old }
    {
        let held = HeldPath::new(alloc, system, rules)?;
        Ok(Search {
            held,
            state: State::Here,
        })
    }

    /// A search at a node: the rest of the walk from there on remains. It may be asked for its place.
    ///
    /// `PathRange` comes exactly where the path is longer than the columns, and `NotNode` exactly where it isn't a node, but where memory is wanted.
    /// Of the reasons, a settled proper prefix is told first.
    pub fn resume<L: Ledger>(
        alloc: Global,
        system: &'m System,
        path: &Path,
        rules: Rules,
        steps: &mut Steps<L>,
    ) -> Result<Search<'m>, ResumeError>
        ensures ok { IfOk result (Resumes rules system.now (path_of path.now)) }
        ensures refusal { IfErr result (Refuses rules system.now path.now) }
        ensures rises { steps.old ≤ steps.new }
        ensures cost { steps.new ≤ steps.old + widest system.now.columns * path.now.size }
        ensures no_cost { length system.now.columns < path.now.size → steps.new ≡ steps.old }
    {
        let length = path.length();
        let columns = system.columns();
        if length > columns {
            return Err(ResumeError::PathRange { length, columns });
        }
        let Ok(mut held) = HeldPath::new(alloc, system, rules) else {
            return Err(ResumeError::OutOfMemory);
        };
        if let Some(length) = follow(&mut held, path, steps) {
            return Err(ResumeError::NotNode(Why::SettledBefore(length)));
        }
        if let Some(why) = why_not(held.judge()) {
            return Err(ResumeError::NotNode(why));
        }
        Ok(Search {
            held,
            state: State::Here,
        })
    }

    /// Answers the first entry that remains. `Branch` and `Solution` lower the budget by 1, and the other entries leave it.
    ///
    /// `Spent` comes exactly where that entry's path is a node and the budget is 0. The search then stays, and a later call with a budget goes on.
    /// `Finished` comes exactly where no entry remains.
    /// After `Spent` the search may be asked for its `place`, and after `Solution` for what is `chosen`.
    pub fn advance<L: Ledger>(&mut self, budget: &mut u64, steps: &mut Steps<L>) -> Event
        ensures entry { Advances self.old budget.old result self.new budget.new }
        ensures answer { IsAnswer self.old budget.old result self.new budget.new }
        ensures rises { steps.old ≤ steps.new }
        ensures cost { steps.new + widest self.old.system.columns * length self.new.path ≤ steps.old + widest self.old.system.columns * (length self.old.path + 3) }
    {
        if let Some(row) = self.try_yes(steps) {
            return Event::Over(row);
        }
        if !self.come(steps) {
            return Event::Finished;
        }
        self.answer(budget)
    }

    /// Passes the entry of the path below that to which the search has come, if a row is over there, and tells the row. Else the search stays.
    /// No column is taken for that: such an entry costs a look at the cells of its column.
    fn try_yes<L: Ledger>(&mut self, steps: &mut Steps<L>) -> Option<u32>
        ensures none { IsNone result → self.new ≡ self.old }
        ensures some { IfSome result (PassesOver self.old self.new) }
        ensures rises { steps.old ≤ steps.new }
        ensures cost { steps.new ≤ steps.old + widest self.old.system.columns }
    {
        let State::Below = self.state else {
            return None;
        };
        let row = self.held.over_with_yes(steps)?;
        self.state = State::Tried;
        Some(row)
    }

    /// Comes to the path of the first entry that remains. False, at the end, where none does.
    fn come<L: Ledger>(&mut self, steps: &mut Steps<L>) -> bool
        ensures none { result ≡ false → (self.old.rest ≡ []) × (self.new ≡ ended self.old) }
        ensures some { result ≡ true → self.new ≡ stopped self.old self.new.path }
        ensures rises { steps.old ≤ steps.new }
        ensures cost { steps.new + widest self.old.system.columns * length self.new.path ≤ steps.old + widest self.old.system.columns * (length self.old.path + 2) }
    {
        if !go_on(self.state, &mut self.held, steps) {
            self.state = State::Done;
            return false;
        }
        self.state = State::Here;
        true
    }

    /// Answers the entry of the path to which the search has come.
    fn answer(&mut self, budget: &mut u64) -> Event
        requires { IsSome self.old.place }
        ensures entry { Advances self.old budget.old result self.new budget.new }
        ensures answer { IsAnswer self.old budget.old result self.new budget.new }
        ensures path { self.new.path ≡ self.old.path }
    {
        let verdict = self.held.judge();
        let (state, event) = answer_of(verdict, self.held.length(), budget);
        self.state = state;
        event
    }

    /// Passes the entry of the path to which the search has come, if the path is given up there. Else the search stays.
    fn skip(&mut self) -> bool
        requires { IsSome self.old.place }
        ensures leaf { result ≡ true → PassesLeaf self.old self.new }
        ensures kept { result ≡ false → self.new ≡ self.old }
    {
        if !self.held.is_dead() {
            return false;
        }
        self.state = State::Past;
        true
    }

    /// Leaps from the path to which the search has come over nodes whose yes is over at once, as many as the budget allows. Each no passes two entries.
    fn leap<L: Ledger>(&mut self, budget: &mut u64, steps: &mut Steps<L>)
        requires { IsSome self.old.place }
        ensures passes { Passes self.old budget.old self.new budget.new [] }
        ensures here { IsSome self.new.place }
        ensures longer { length self.old.path ≤ length self.new.path }
        ensures count { length self.old.rest + (length self.old.path + length self.old.path) ≡ length self.new.rest + (length self.new.path + length self.new.path) }
        ensures rises { steps.old ≤ steps.new }
        ensures cost { steps.new + widest self.old.system.columns * length self.old.path ≤ steps.old + widest self.old.system.columns * (length self.new.path + 1) }
    {
        if self.held.is_branch() {
            *budget -= self.held.leap(*budget, steps);
        }
    }

    /// Goes on to the next solution, if the budget allows it, and lowers the budget by the nodes that it passes.
    ///
    /// `Design` comes exactly where a solution is among the first nodes that remain, as many as the budget; what remained is `chosen` and then what remains now.
    /// Its settled entry is the last one passed.
    /// `Spent` comes exactly where there is none and more nodes remain, and `Finished` exactly otherwise.
    /// After `Spent` the search may be asked for its `place`, and after `Design` for what is `chosen`.
    pub fn next<L: Ledger>(&mut self, budget: &mut u64, steps: &mut Steps<L>) -> Turn
        ensures turn { Turns self.old budget.old result self.new budget.new }
        ensures rises { steps.old ≤ steps.new }
        ensures cost { steps.new + widest self.old.system.columns * length self.new.path ≤ steps.old + widest self.old.system.columns * (3 * calls_of self.old result self.new + length self.old.path) }
    {
        loop {
            if !self.come(steps) {
                return Turn::Finished;
            }
            self.leap(budget, steps);
            if self.skip() {
                continue;
            }
            match self.answer(budget) {
                Event::Solution => return Turn::Design,
                Event::Spent => return Turn::Spent,
                Event::Finished => return Turn::Finished,
                _ => {}
            }
        }
    }

    /// The values of the solution that was answered last, one for each column: after `Solution` and `Design`.
    pub fn chosen(&self) -> &[bool]
        requires { IsSome self.now.chosen }
        ensures value { self.now.chosen ≡ Some result.now }
        ensures long { length result.now ≡ length self.now.system.columns }
    {
        self.held.values()
    }

    /// The path at which the walk goes on: what remains are the entries that aren't before it, with its rest and its load.
    /// It is there before any other call, and after `Spent`, where it is a node whose entry comes next.
    pub fn place(&self) -> PathView<'_>
        requires { IsSome self.now.place }
        ensures long { result.length ≡ length result.decisions.now }
        ensures stands { StandsBefore self.now result.decisions.now }
    {
        PathView {
            length: self.held.length(),
            decisions: self.held.path(),
        }
    }
}
