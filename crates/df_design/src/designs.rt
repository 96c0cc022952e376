// The designs of a problem are those of the solutions of its orbit system, in order: the search steps through the system, and a solution's design is listed where it is asked for.
ghost use Rattle.std.specs.Prelude.{◌≡◌, ◌+◌, ◌*◌, ◌<◌, ◌≤◌, [], length, Some, IsSome, IfOk, IfErr, option_map};
ghost use Rattle.df_walk.specs.Systems.{widest};
ghost use Rattle.df_walk.specs.Walks.{walk};
ghost use Rattle.df_walk.specs.Paths.{path_of};
ghost use Rattle.df_search.specs.Resumptions.{Refuses};
ghost use Rattle.df_search.specs.Searches.{Advances, IsAnswer, Turns, calls_of};
ghost use Rattle.df_kramer_mesner.specs.OrbitSystems.{columns_of, orbit_system};
ghost use Rattle.df_correspondence.specs.Designs.{asked, base};
ghost use Rattle.df_design.specs.RemainingDesigns.{rest_designs, last_design, remaining_at, StandsAt, ResumesAt, TurnsDesigns, AdvancesDesigns};

use crate::OutOfMemory;
use crate::blocks::Blocks;
use crate::reps::Reps;
use df_matrix::{OrbitMatrix, matrix_tells_designs};
use df_orbits::Images;
use df_search::{Event, PathView, ResumeError, Search, Turn};
use df_steps::Steps;
use df_system::Path;
use df_walk::Rules;
use std::alloc::Global;
use std::marker::Model;
use std::sync::ledger::Ledger;

/// The designs that a problem asks for and that remain. It borrows the orbit matrix of the problem, and takes no memory once it is made.
///
/// Contracts see it as the problem and a search through its orbit system: what remains are the designs of the solutions that remain, in order.
#[derive(Drop)]
pub struct Designs<'m> {
    matrix: &'m OrbitMatrix,
    images: Images,
    search: Search<'m>,
}

impl<'m> Model for Designs<'m> {
    ghost use Rattle.df_design.specs.RemainingDesigns.{Remaining};
    ghost use Rattle.df_design.specs.HeldDesigns.{AreHeld};

    ghost Value = { Remaining };

    ghost view = { λ d. record { problem = d.matrix.now; search = d.search } };

    ghost invariant = { λ d. AreHeld d.matrix.now d.images d.search };
}

impl<'m> Designs<'m> {
    /// All designs that the problem asks for, in their order. It may be asked for its place, the empty path.
    pub fn start<L: Ledger>(
        alloc: Global,
        matrix: &'m OrbitMatrix,
        rules: Rules,
        steps: &mut Steps<L>,
    ) -> Result<Designs<'m>, OutOfMemory>
        ensures value { IfOk result (λ d. d ≡ remaining_at matrix.now rules [] (walk rules (orbit_system matrix.now) [])) }
        ensures stands { IfOk result (λ d. StandsAt d []) }
        ensures whole { IfOk result (λ d. rest_designs d ≡ asked matrix.now) }
        ensures cost { steps.new ≡ steps.old }
    {
        matrix_tells_designs(matrix);
        let images = Images::new(alloc, matrix.maps())?;
        let search = Search::new(alloc, matrix.system(), rules, steps)?;
        Ok(Designs {
            matrix,
            images,
            search,
        })
    }

    /// The designs of the solutions that aren't before a path, which is a node. It may be asked for its place, the path.
    ///
    /// `PathRange` comes exactly where the path is longer than the columns, and `NotNode` exactly where it isn't a node, but where memory is wanted.
    /// Of the reasons, a settled proper prefix is told first.
    pub fn from_path<L: Ledger>(
        alloc: Global,
        matrix: &'m OrbitMatrix,
        path: &Path,
        rules: Rules,
        steps: &mut Steps<L>,
    ) -> Result<Designs<'m>, ResumeError>
        ensures ok { IfOk result (ResumesAt rules matrix.now (path_of path.now)) }
        ensures refusal { IfErr result (Refuses rules (orbit_system matrix.now) path.now) }
        ensures rises { steps.old ≤ steps.new }
        ensures cost { steps.new ≤ steps.old + widest (orbit_system matrix.now).columns * path.now.size }
        ensures no_cost { length (columns_of matrix.now) < path.now.size → steps.new ≡ steps.old }
    {
        let search = Search::resume(alloc, matrix.system(), path, rules, steps)?;
        let Ok(images) = Images::new(alloc, matrix.maps()) else {
            return Err(ResumeError::OutOfMemory);
        };
        Ok(Designs {
            matrix,
            images,
            search,
        })
    }

    /// Answers the first entry that remains. `Branch` and `Solution` lower the budget by 1, and the other entries leave it.
    ///
    /// `Spent` comes exactly where that entry's path is a node and the budget is 0. What remains then stays, and a later call with a budget goes on.
    /// `Finished` comes exactly where no entry remains.
    /// After `Spent` it may be asked for its `place`, and after `Solution` for the design: for what is `chosen`, its `reps` and its `blocks`.
    pub fn advance<L: Ledger>(&mut self, budget: &mut u64, steps: &mut Steps<L>) -> Event
        ensures problem { self.new.problem ≡ self.old.problem }
        ensures entry { Advances self.old.search budget.old result self.new.search budget.new }
        ensures answer { IsAnswer self.old.search budget.old result self.new.search budget.new }
        ensures designs { AdvancesDesigns self.old result self.new }
        ensures rises { steps.old ≤ steps.new }
        ensures cost { steps.new + widest self.old.search.system.columns * length self.new.search.path ≤ steps.old + widest self.old.search.system.columns * (length self.old.search.path + 3) }
    {
        self.search.advance(budget, steps)
    }

    /// Goes on to the next design, if the budget allows it, and lowers the budget by the nodes that it passes.
    ///
    /// `Design` comes exactly where a design's entry is among the first nodes that remain, as many as the budget: what remained is that design and what remains now.
    /// `Spent` comes exactly where there is none and more nodes remain, and `Finished` exactly otherwise.
    /// After `Spent` it may be asked for its `place`, and after `Design` for the design: for what is `chosen`, its `reps` and its `blocks`.
    pub fn next<L: Ledger>(&mut self, budget: &mut u64, steps: &mut Steps<L>) -> Turn
        ensures problem { self.new.problem ≡ self.old.problem }
        ensures turn { Turns self.old.search budget.old result self.new.search budget.new }
        ensures designs { TurnsDesigns self.old result self.new }
        ensures rises { steps.old ≤ steps.new }
        ensures cost { steps.new + widest self.old.search.system.columns * length self.new.search.path ≤ steps.old + widest self.old.search.system.columns * (3 * calls_of self.old.search result self.new.search + length self.old.search.path) }
    {
        self.search.next(budget, steps)
    }

    /// The path at which the walk goes on: what remains are the entries that aren't before it, with the designs of its rest and with its load.
    /// It is there before any other call, and after `Spent`.
    pub fn place(&self) -> PathView<'_>
        requires { IsSome self.now.search.place }
        ensures long { result.length ≡ length result.decisions.now }
        ensures stands { StandsAt self.now result.decisions.now }
    {
        self.search.place()
    }

    /// The solution of the design that was answered last, one value for each column: after `Solution` and `Design`.
    pub fn chosen(&self) -> &[bool]
        requires { IsSome self.now.search.chosen }
        ensures value { self.now.search.chosen ≡ Some result.now }
        ensures long { length result.now ≡ length (columns_of self.now.problem) }
    {
        self.search.chosen()
    }

    /// The base blocks of the design that was answered last, increasing: after `Solution` and `Design`.
    pub fn reps(&self) -> Reps<'_>
        requires { IsSome self.now.search.chosen }
        ensures { option_map (base self.now.problem) (last_design self.now) ≡ Some result }
    {
        matrix_tells_designs(self.matrix);
        Reps::new(self.matrix, self.chosen())
    }

    /// The blocks of the design that was answered last, increasing, each once: after `Solution` and `Design`.
    pub fn blocks(&self) -> Blocks<'_>
        requires { IsSome self.now.search.chosen }
        ensures { last_design self.now ≡ Some result }
    {
        Blocks::new(self.matrix, &self.images, self.chosen())
    }
}
