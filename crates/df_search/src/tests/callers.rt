// A caller of a search that rests on its clauses alone: after each answer it asks what that answer allows.
ghost use Rattle.std.specs.Prelude.{◌≡◌, [], ◌∷◌, IfOk};
ghost use Rattle.df_walk.specs.Paths.{path_of, rest, load};
ghost use Rattle.df_walk.specs.Remains.{remaining};
ghost use Rattle.df_walk.specs.Solutions.{solutions};
ghost use Rattle.df_search.specs.declared.Event.TheVariants as event;
ghost use Rattle.df_search.specs.declared.Turn.TheVariants as turn;
ghost use Rattle.df_search.specs.Searches.{rest_solutions, rest_nodes};

use crate::{Event, OutOfMemory, ResumeError, Search, Turn};
use df_steps::Steps;
use df_system::{Path, System};
use df_walk::Rules;
use std::alloc::Global;
use std::sync::ledger::Ledger;

// The place of a new search.
pub(crate) fn first_place<L: Ledger>(
    alloc: Global,
    system: &System,
    rules: Rules,
    steps: &mut Steps<L>,
) -> Result<Vec<bool>, OutOfMemory>
    ensures { IfOk result (λ p. solutions system.now ≡ rest system.now p.items) }
{
    let search = Search::new(alloc, system, rules, steps)?;
    let place = search.place();
    Vec::from_slice(alloc, place.decisions)
}

// The place of a search that is resumed.
pub(crate) fn resumed_place<L: Ledger>(
    alloc: Global,
    system: &System,
    path: &Path,
    rules: Rules,
    steps: &mut Steps<L>,
) -> Result<Vec<bool>, ResumeError>
    ensures { IfOk result (λ p. p.items ≡ path_of path.now) }
{
    let search = Search::resume(alloc, system, path, rules, steps)?;
    let place = search.place();
    match Vec::from_slice(alloc, place.decisions) {
        Ok(place) => Ok(place),
        Err(_) => Err(ResumeError::OutOfMemory),
    }
}

// One step, and the solution or the place where the answer allows to ask for it.
pub(crate) fn ask_advance<L: Ledger>(
    search: &mut Search<'_>,
    budget: &mut u64,
    steps: &mut Steps<L>,
    asked: &mut Vec<bool>,
) -> Result<Event, OutOfMemory>
    ensures solution { IfOk result (λ e. e ≡ event.Solution → rest_solutions search.old ≡ asked.new.items ∷ rest_solutions search.new) }
    ensures place { IfOk result (λ e. e ≡ event.Spent → rest_solutions search.old ≡ rest search.new.system asked.new.items) }
    ensures entries { IfOk result (λ e. e ≡ event.Spent → search.new.rest ≡ remaining search.new.rules search.new.system asked.new.items) }
    ensures load { IfOk result (λ e. e ≡ event.Spent → rest_nodes search.old ≡ load search.new.rules search.new.system asked.new.items) }
    ensures end { IfOk result (λ e. e ≡ event.Finished → rest_solutions search.old ≡ []) }
{
    asked.clear();
    match search.advance(budget, steps) {
        Event::Solution => {
            asked.extend_from_slice(search.chosen())?;
            Ok(Event::Solution)
        }
        Event::Spent => {
            let place = search.place();
            asked.extend_from_slice(place.decisions)?;
            Ok(Event::Spent)
        }
        event => Ok(event),
    }
}

// The next solution, or the place where the budget is spent.
pub(crate) fn ask_next<L: Ledger>(
    search: &mut Search<'_>,
    budget: &mut u64,
    steps: &mut Steps<L>,
    asked: &mut Vec<bool>,
) -> Result<Turn, OutOfMemory>
    ensures solution { IfOk result (λ t. t ≡ turn.Design → rest_solutions search.old ≡ asked.new.items ∷ rest_solutions search.new) }
    ensures place { IfOk result (λ t. t ≡ turn.Spent → rest_solutions search.old ≡ rest search.new.system asked.new.items) }
    ensures entries { IfOk result (λ t. t ≡ turn.Spent → search.new.rest ≡ remaining search.new.rules search.new.system asked.new.items) }
    ensures load { IfOk result (λ t. t ≡ turn.Spent → rest_nodes search.new ≡ load search.new.rules search.new.system asked.new.items) }
    ensures end { IfOk result (λ t. t ≡ turn.Finished → rest_solutions search.old ≡ []) }
{
    asked.clear();
    match search.next(budget, steps) {
        Turn::Design => {
            asked.extend_from_slice(search.chosen())?;
            Ok(Turn::Design)
        }
        Turn::Spent => {
            let place = search.place();
            asked.extend_from_slice(place.decisions)?;
            Ok(Turn::Spent)
        }
        Turn::Finished => Ok(Turn::Finished),
    }
}
