// The checker holds the decisions and, of each, whether it is a branch whose no is still to come. A
// leaf that is closed takes decisions back
// up to the last such branch, and goes on there with no: each decision is taken back once, so an
// entry costs on the average what it decided.
ghost use Rattle.std.specs.Prelude.{◌≡◌, ◌+◌, ◌<◌, ◌≤◌, ℕ, nat_eq, [], ◌∷◌, length, slice_get, slice_set};
ghost use Rattle.std.specs.Prelude.{Option, Some, None, IfOk, IfErr, true, false};
ghost use Rattle.df_walk.specs.Systems.{IsSystem};
ghost use Rattle.df_walk.specs.Assignments.{Decisions};
ghost use Rattle.df_runs.specs.Waiting.{wanted, waiting};
ghost use Rattle.df_runs.specs.WeightedSums.{IsBounded};
ghost use Rattle.df_system.specs.declared.limits.TheConstants.{MOST_COLUMNS};
ghost use Rattle.df_check.specs.declared.TheConstants.{MOST_VALUE};
ghost use Rattle.df_check.specs.Leaves.{is_yes, stands_at, difference_fault};
ghost use Rattle.df_check.specs.Checkers.{Logs, begun, fault_at, after_entry, answer_to, columns_differ, leaf_fault, leaf_fault_by};
ghost use Rattle.df_check.specs.Checkers.{after_leaf, told, then_wants, counted, is_closed, is_leaf_wanted};
ghost use Rattle.df_check.specs.Stages.{AreFlagged, branches, wants_at};

use crate::judge::entry_fault;
use crate::{Fed, LogFault, OutOfMemory};
use df_runs::laws::wanted_is_kept;
use df_steps::Steps;
use df_system::{Partial, System};
use df_walk::Entry;
use std::alloc::Global;
use std::marker::{Brand, Model};
use std::sync::ledger::{Blank, Ledger};

/// What a checker waits for.
#[derive(Clone, Copy)]
enum Stage {
    // an entry of the log of its decisions
    AtLog,
    // the leaf of its decisions, which are settled
    AtLeaf,
    // nothing: the log is closed
    Done,
    // nothing: there was a fault
    Broken,
}

/// A checker of one log of a system, from nothing decided on. It takes entries in any order of
/// branching, and after each settled one its leaf: the yes columns, increasing.
///
/// Contracts see the system, what is still to come, and how many leaves were given.
#[derive(Drop)]
pub struct SystemChecker<'m> {
    system: &'m System,
    partial: Partial<'m>,
    // of the decisions, in the first `count` places and in their order, whether each is a branch
    // whose no is still to come
    flags: Vec<bool>,
    count: usize,
    stage: Stage,
    leaves: u64,
}

impl<'m> Model for SystemChecker<'m> {
    ghost use Rattle.df_check.specs.Checkers.{Checking};
    ghost use Rattle.df_check.specs.Stages.{AreHeld, wants_at};

    ghost Value = { Checking };

    ghost view = { λ k. record { system = k.system.now; wants = wants_at k.stage k.partial k.flags.items k.count; leaves = k.leaves } };

    ghost invariant = { λ k. AreHeld k.system.now k.partial k.flags.items k.count };
}

/// Goes on to the no of the last branch whose no is still to come, once its yes is done. Where
/// there is none, the log is closed.
fn close<L: Ledger>(
    partial: &mut Partial<'_>,
    flags: &mut [bool],
    count: &mut usize,
    steps: &mut Steps<L>,
) -> Stage
    requires { AreFlagged partial.old flags.old count.old }
    ensures system { partial.new.system ≡ partial.old.system }
    ensures flagged { AreFlagged partial.new flags.new count.new }
    ensures wants { wants_at result partial.new flags.new count.new ≡ Logs (waiting partial.old.decisions (branches partial.old flags.old count.old)) }
{
    while *count > 0 {
        *count -= 1;
        let column = partial.undo(steps);
        if flags[*count] {
            flags[*count] = false;
            partial.leave(column, steps);
            *count += 1;
            return Stage::AtLog;
        }
    }
    Stage::Done
}

/// Takes a branch up: its yes comes first.
fn take_up<L: Ledger>(
    partial: &mut Partial<'_>,
    flags: &mut [bool],
    count: &mut usize,
    column: u32,
    steps: &mut Steps<L>,
)
    requires flagged { AreFlagged partial.old flags.old count.old }
    requires free { slice_get partial.old.decisions column ≡ Some None }
    ensures system { partial.new.system ≡ partial.old.system }
    ensures flagged { AreFlagged partial.new flags.new count.new }
    ensures wanted { wanted partial.new.decisions (branches partial.new flags.new count.new) ≡ slice_set partial.old.decisions column (Some true) ∷ slice_set partial.old.decisions column (Some false) ∷ waiting partial.old.decisions (branches partial.old flags.old count.old) }
{
    // it has no decision, so there is room for one
    let _undecided = partial.decided(column);
    wanted_is_kept();
    partial.take(column, steps);
    flags[*count] = true;
    *count += 1;
}

/// Whether a column is decided yes.
pub(crate) fn is_yes(decision: Option<bool>) -> bool
    ensures { result ≡ is_yes decision }
{
    match decision {
        Some(yes) => yes,
        None => false,
    }
}

/// Whether a column stands at a place of a list.
fn stands_at(columns: &[u32], place: usize, column: u32) -> bool
    ensures { result ≡ stands_at nat_eq columns.now place column }
{
    match columns.get(place) {
        Some(given) => *given == column,
        None => false,
    }
}

/// How many members a list of columns has in common with the yes columns from the first on, where
/// it isn't the list of these.
fn leaf_difference(partial: &Partial<'_>, count: u32, columns: &[u32]) -> Option<u32>
    requires count { count ≡ length partial.now.system.columns }
    requires long { length partial.now.decisions ≡ count }
    ensures { result ≡ columns_differ columns.now partial.now.decisions }
{
    let mut place: u32 = 0;
    for column in 0..count {
        if is_yes(partial.decided(column)) {
            if !stands_at(columns, place as usize, column) {
                return Some(place);
            }
            place += 1;
        }
    }
    if (place as usize) < columns.len() {
        Some(place)
    } else {
        None
    }
}

/// The fault of a leaf that differs so.
pub(crate) fn difference_fault(difference: Option<u32>) -> Option<LogFault>
    ensures { result ≡ difference_fault difference }
{
    match difference {
        Some(place) => Some(LogFault::DesignDiffers {
            place: i64::from(place),
        }),
        None => None,
    }
}

impl<'m> SystemChecker<'m> {
    /// One log is wanted, with nothing decided. All memory that is ever used is taken here.
    ///
    /// The condition: the system has at most `MOST_COLUMNS` columns, and no entry and no target
    /// above `MOST_VALUE`, so that all sums fit 64 bits.
    pub fn new(alloc: Global, system: &'m System) -> Result<SystemChecker<'m>, OutOfMemory>
        requires { IsBounded system.now MOST_COLUMNS MOST_VALUE MOST_VALUE }
        ensures { IfOk result (λ k. k ≡ begun system.now) }
    {
        let partial = Partial::new(alloc, system)?;
        let flags = vec![in alloc; false; system.columns() as usize]?;
        Ok(SystemChecker {
            system,
            partial,
            flags,
            count: 0,
            stage: Stage::AtLog,
            leaves: 0,
        })
    }

    /// Takes the next entry.
    ///
    /// `Fault` comes exactly where a rule fails: first `AfterClose`, where the log is closed or
    /// there was a fault; then `DesignWanted`, where a leaf must follow; then the entry's own.
    /// `WantsDesign` comes exactly after a settled entry that holds.
    pub fn feed(&mut self, entry: Entry) -> Fed
        ensures answer { result ≡ told (fault_at self.old.system self.old.wants entry) (answer_to entry) }
        ensures value { self.new ≡ record self.old { wants = then_wants (fault_at self.old.system self.old.wants entry) (after_entry self.old.wants entry) } }
    {
        self.feed_counted::<Brand>(entry, Blank::new(1))
    }

    fn feed_counted<L: Ledger>(&mut self, entry: Entry, blank: Blank) -> Fed
        requires name { blank.name ≡ L.name }
        requires parts { blank.parts ≡ L.parts }
        requires some { 0 < blank.parts }
        ensures answer { result ≡ told (fault_at self.old.system self.old.wants entry) (answer_to entry) }
        ensures value { self.new ≡ record self.old { wants = then_wants (fault_at self.old.system self.old.wants entry) (after_entry self.old.wants entry) } }
    {
        let mut steps = Steps::<L>::new(blank);
        match self.fault(&entry, &mut steps) {
            Some(fault) => {
                self.stage = Stage::Broken;
                Fed::Fault(fault)
            }
            None => self.accept(entry, &mut steps),
        }
    }

    /// The fault of an entry, if it has one.
    fn fault<L: Ledger>(&self, entry: &Entry, steps: &mut Steps<L>) -> Option<LogFault>
        ensures { result ≡ fault_at self.now.system self.now.wants entry.now }
    {
        match self.stage {
            Stage::AtLog => entry_fault(self.system, &self.partial, entry, steps),
            Stage::AtLeaf => Some(LogFault::DesignWanted),
            Stage::Done | Stage::Broken => Some(LogFault::AfterClose),
        }
    }

    /// Takes an entry that has no fault.
    fn accept<L: Ledger>(&mut self, entry: Entry, steps: &mut Steps<L>) -> Fed
        requires { fault_at self.old.system self.old.wants entry ≡ None }
        ensures answer { result ≡ answer_to entry }
        ensures value { self.new ≡ record self.old { wants = after_entry self.old.wants entry } }
    {
        match entry {
            Entry::Branch(column) => {
                take_up(
                    &mut self.partial,
                    &mut self.flags,
                    &mut self.count,
                    column,
                    steps,
                );
                Fed::Ok
            }
            Entry::Settled => {
                self.stage = Stage::AtLeaf;
                Fed::WantsDesign
            }
            Entry::Over(_) | Entry::Under(_) | Entry::Residue { .. } | Entry::Cut(_) => {
                self.stage = close(&mut self.partial, &mut self.flags, &mut self.count, steps);
                Fed::Ok
            }
        }
    }

    /// Takes the leaf of a settled entry: the yes columns, increasing.
    ///
    /// `Fault` comes exactly where a rule fails: first `AfterClose`, where the log is closed or
    /// there was a fault; then `NotEntry`, where no leaf is wanted;
    /// then `DesignDiffers`, with the number of members that the list and the wanted one have in
    /// common from the first on.
    pub fn feed_leaf(&mut self, columns: &[u32]) -> Fed
        ensures answer { result ≡ told (leaf_fault self.old.wants columns.now) Fed.Ok }
        ensures value { self.new ≡ record self.old { wants = then_wants (leaf_fault self.old.wants columns.now) (after_leaf self.old.wants); leaves = counted (leaf_fault self.old.wants columns.now) self.old.leaves } }
    {
        let fault = self.leaf_fault(columns);
        self.end_leaf(fault)
    }

    /// The fault of a leaf, if it has one.
    fn leaf_fault(&self, columns: &[u32]) -> Option<LogFault>
        ensures { result ≡ leaf_fault self.now.wants columns.now }
    {
        match self.leaf_awaited() {
            Ok(partial) => {
                difference_fault(leaf_difference(partial, self.system.columns(), columns))
            }
            Err(fault) => Some(fault),
        }
    }

    /// The decisions whose leaf is wanted. The error is the fault of any leaf where none is.
    pub(crate) fn leaf_awaited(&self) -> Result<&Partial<'m>, LogFault>
        ensures system { IfOk result (λ partial. partial.now.system ≡ self.now.system) }
        ensures long { IfOk result (λ partial. length partial.now.decisions ≡ length self.now.system.columns) }
        ensures wanted { IfOk result (λ partial. (differs : Decisions → Option ℕ)
            → leaf_fault_by differs self.now.wants ≡ difference_fault (differs partial.now.decisions)) }
        ensures refused { IfErr result (λ fault. (differs : Decisions → Option ℕ)
            → leaf_fault_by differs self.now.wants ≡ Some fault) }
    {
        match self.stage {
            Stage::AtLog => Err(LogFault::NotEntry),
            Stage::AtLeaf => Ok(&self.partial),
            Stage::Done | Stage::Broken => Err(LogFault::AfterClose),
        }
    }

    /// Takes a leaf with its fault, if it has one: where it has none, a leaf is wanted.
    pub(crate) fn end_leaf(&mut self, fault: Option<LogFault>) -> Fed
        requires { fault ≡ None → is_leaf_wanted self.old.wants ≡ true }
        ensures answer { result ≡ told fault Fed.Ok }
        ensures value { self.new ≡ record self.old {
          wants = then_wants fault (after_leaf self.old.wants);
          leaves = counted fault self.old.leaves;
        } }
    {
        self.end_leaf_counted::<Brand>(fault, Blank::new(1))
    }

    fn end_leaf_counted<L: Ledger>(&mut self, fault: Option<LogFault>, blank: Blank) -> Fed
        requires name { blank.name ≡ L.name }
        requires parts { blank.parts ≡ L.parts }
        requires some { 0 < blank.parts }
        requires wanted { fault ≡ None → is_leaf_wanted self.old.wants ≡ true }
        ensures answer { result ≡ told fault Fed.Ok }
        ensures value { self.new ≡ record self.old {
          wants = then_wants fault (after_leaf self.old.wants);
          leaves = counted fault self.old.leaves;
        } }
    {
        let mut steps = Steps::<L>::new(blank);
        match fault {
            Some(fault) => {
                self.stage = Stage::Broken;
                Fed::Fault(fault)
            }
            None => {
                self.stage = close(
                    &mut self.partial,
                    &mut self.flags,
                    &mut self.count,
                    &mut steps,
                );
                self.leaves = self.leaves.saturating_add(1);
                Fed::Ok
            }
        }
    }

    /// Whether the log is whole and its last leaf was given, without a fault.
    pub fn closed(&self) -> bool
        ensures { result ≡ is_closed self.now.wants }
    {
        matches!(self.stage, Stage::Done)
    }

    /// How many leaves were accepted: 0 at `new`, and 1 more at each `feed_leaf` that is `Ok`. It
    /// stays at 18,446,744,073,709,551,615 once it is there.
    pub fn leaves(&self) -> u64
        ensures { result ≡ self.now.leaves }
    {
        self.leaves
    }
}
