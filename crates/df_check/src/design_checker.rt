// A checker of the logs of an orbit matrix: a `SystemChecker` of its system, whose leaves are given as design lines. A
// design line is compared block by block with the representatives of the yes columns, so that no memory is taken.
ghost use Rattle.std.specs.Prelude.{◌≡◌, ◌<◌, length, IfOk};
ghost use Rattle.df_subsets.specs.Subsets.{same_list};
ghost use Rattle.df_kramer_mesner.specs.OrbitSystems.{column_at, columns_of, orbit_system};
ghost use Rattle.df_check.specs.Leaves.{stands_at};
ghost use Rattle.df_check.specs.Checkers.{fault_at, after_entry, answer_to, after_leaf, told, then_wants, counted, is_closed};
ghost use Rattle.df_check.specs.DesignLines.{begun_on, blocks_differ, design_fault};

use crate::checker::{SystemChecker, difference_fault, is_yes};
use crate::{Fed, LogFault, OutOfMemory};
use df_matrix::{OrbitMatrix, matrix_is_bounded};
use df_subsets::Block;
use df_system::Partial;
use df_walk::Entry;
use std::alloc::Global;
use std::marker::Model;

/// A checker of one log of an orbit matrix, from nothing decided on. It takes entries in any order of branching, and after
/// each settled one its design line: the representatives of the yes columns, in the order of the columns.
///
/// Contracts see the problem of the matrix, what is still to come, and how many designs were given.
#[derive(Drop)]
pub struct Checker<'m> {
    matrix: &'m OrbitMatrix,
    checker: SystemChecker<'m>,
}

impl<'m> Model for Checker<'m> {
    ghost use Rattle.std.specs.Prelude.{◌≡◌};
    ghost use Rattle.df_kramer_mesner.specs.OrbitSystems.{orbit_system};
    ghost use Rattle.df_check.specs.DesignLines.{DesignChecking};

    ghost Value = { DesignChecking };

    ghost view = { λ k. record { problem = k.matrix.now; wants = k.checker.wants; designs = k.checker.leaves } };

    ghost invariant = { λ k. k.checker.system ≡ orbit_system k.matrix.now };
}

// Whether the representative of a column stands at a place of a list.
fn stands_at(matrix: &OrbitMatrix, blocks: &[Block], place: usize, column: u32) -> bool
    requires { column < length (columns_of matrix.now) }
    ensures { result ≡ stands_at same_list blocks.now place (column_at matrix.now column) }
{
    match blocks.get(place) {
        Some(block) => *block == matrix.column_block(column),
        None => false,
    }
}

// How many blocks of a list are those of the representatives of the yes columns, from the first on, where the list isn't the
// list of these.
fn design_difference(matrix: &OrbitMatrix, partial: &Partial<'_>, blocks: &[Block]) -> Option<u32>
    requires system { partial.now.system ≡ orbit_system matrix.now }
    requires long { length partial.now.decisions ≡ length (columns_of matrix.now) }
    ensures { result ≡ blocks_differ matrix.now blocks.now partial.now.decisions }
{
    let mut place: u32 = 0;
    for column in 0..matrix.system().columns() {
        if is_yes(partial.decided(column)) {
            if !stands_at(matrix, blocks, place as usize, column) {
                return Some(place);
            }
            place += 1;
        }
    }
    if (place as usize) < blocks.len() {
        Some(place)
    } else {
        None
    }
}

impl<'m> Checker<'m> {
    /// One log is wanted, with nothing decided. All memory that is ever used is taken here.
    pub fn new(alloc: Global, matrix: &'m OrbitMatrix) -> Result<Checker<'m>, OutOfMemory>
        ensures { IfOk result (λ k. k ≡ begun_on matrix.now) }
    {
        matrix_is_bounded(matrix);
        let system = matrix.system();
        let _columns = system.columns();
        let checker = SystemChecker::new(alloc, system)?;
        Ok(Checker { matrix, checker })
    }

    /// Takes the next entry, as `SystemChecker::feed` does.
    ///
    /// `Fault` comes exactly where a rule fails: first `AfterClose`, where the log is closed or there was a fault; then
    /// `DesignWanted`, where a design line must follow; then the entry's own. `WantsDesign` comes exactly after a settled
    /// entry that holds.
    pub fn feed(&mut self, entry: Entry) -> Fed
        ensures answer { result ≡ told (fault_at (orbit_system self.old.problem) self.old.wants entry) (answer_to entry) }
        ensures value { self.new ≡ record self.old {
          wants = then_wants (fault_at (orbit_system self.old.problem) self.old.wants entry) (after_entry self.old.wants entry);
        } }
    {
        self.checker.feed(entry)
    }

    /// Takes the design line of a settled entry: the representatives of the yes columns, in the order of the columns.
    ///
    /// `Fault` comes exactly where a rule fails: first `AfterClose`, where the log is closed or there was a fault; then
    /// `NotEntry`, where no design line is wanted; then `DesignDiffers`, with the number of blocks that the list and the
    /// wanted one have in common from the first on.
    pub fn feed_design(&mut self, blocks: &[Block]) -> Fed
        ensures answer { result ≡ told (design_fault self.old.problem self.old.wants blocks.now) Fed.Ok }
        ensures value { self.new ≡ record self.old {
          wants = then_wants (design_fault self.old.problem self.old.wants blocks.now) (after_leaf self.old.wants);
          designs = counted (design_fault self.old.problem self.old.wants blocks.now) self.old.designs;
        } }
    {
        let fault = self.design_fault(blocks);
        self.checker.end_leaf(fault)
    }

    // The fault of a design line, if it has one.
    fn design_fault(&self, blocks: &[Block]) -> Option<LogFault>
        ensures { result ≡ design_fault self.now.problem self.now.wants blocks.now }
    {
        match self.checker.leaf_awaited() {
            Ok(partial) => difference_fault(design_difference(self.matrix, partial, blocks)),
            Err(fault) => Some(fault),
        }
    }

    /// Whether the log is whole and its last design was given, without a fault.
    pub fn closed(&self) -> bool
        ensures { result ≡ is_closed self.now.wants }
    {
        self.checker.closed()
    }

    /// How many design lines were accepted: 0 at `new`, and 1 more at each `feed_design` that is `Ok`. It stays at
    /// 18,446,744,073,709,551,615 once it is there.
    pub fn designs(&self) -> u64
        ensures { result ≡ self.now.designs }
    {
        self.checker.leaves()
    }
}
