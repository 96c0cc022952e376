//! The checker of a log, a line at a time: what it still wants, and the first fault with its numbers. It knows no search.
//! A `SystemChecker` is over any system, with columns as leaves; a `Checker` over an orbit matrix, with design lines.
//! It stands on `df_system`, whose `Partial` keeps the needs and caps of the decisions, on `df_matrix` and `df_list`, and on the
//! definitions and laws of `df_walk`, `df_runs`, `df_correspondence` and `df_dossier`.
//! The crates above feed a checker, and print a fault by its `text`. They may rest on the clauses, and on the laws: a checker is
//! closed exactly where what it was fed is one log that proves its leaves, in any order of branching, and the designs of a closed
//! one are all that its problem asks for.
//! An input that is a chain of dossiers is judged line by line by the definitions of `specs/Judging`, as a slice by `check` and from
//! a source by `check_stream`: the laws say that it is complete exactly where its lines are a chain.
//! Laws for the rooms above: those of `laws`, of `design_laws` and of `chain_laws`, and proofs/DesignLeaves.
//! An entry costs the time of its row's numbers or its column's cells, and of what it takes back; a cut, a residue, a leaf or a
//! design line may pass all columns. All memory of a checker is taken in `SystemChecker::new` and `Checker::new`; an input is read
//! once, and takes that of its first source, of the source's matrix and of its longest line beside it.
#![tactic(auto)]

mod chain;
pub mod chain_laws;
pub mod checker;
mod checks;
mod cuts;
pub mod design_checker;
pub mod design_laws;
mod fault_texts;
mod judge;
pub mod laws;
mod opening;
mod running;
mod same_source;
mod stop;
mod streams;
#[cfg(test)]
mod tests;

pub use checker::SystemChecker;
pub use checks::{CheckError, CheckVerdict, check};
pub use design_checker::Checker;
pub use df_walk::{CutRow, Entry};
pub use streams::check_stream;

/// Out of memory.
pub type OutOfMemory = std::alloc::AllocError;

/// No target and no entry of a system that is checked is above this.
pub const MOST_VALUE: u32 = 8_000_000;

/// Why a log is refused. `OpenAtEnd`, `ChainBroken` and `SourceDiffers` are of chains of dossiers:
/// no checker of one log answers them.
#[derive(Clone, Copy, Debug, Eq, PartialEq)]
pub enum LogFault {
    /// A branch at a number that is no column's.
    ColumnRange,
    /// A row that there isn't.
    RowRange,
    /// A branch at a column that is decided.
    ColumnDecided,
    /// The row isn't over: its need, which isn't negative.
    NotOver { need: i64 },
    /// The row isn't under: its need and its cap, which isn't below the need.
    NotUnder { need: i64, cap: i64 },
    /// The divisor is below 2, or it doesn't divide each undecided entry of the row, or it divides
    /// the need. The need, and the first undecided column whose entry isn't a multiple, -1 where
    /// all are.
    NotResidue { need: i64, column: i64 },
    /// The weighted needs add up to no less than the least sum that undecided columns can give and
    /// no more than the greatest: these two.
    NotCut { least: i64, greatest: i64 },
    /// Not all needs are 0: the least row whose need isn't, and its need.
    NotSettled { row: u32, need: i64 },
    /// A leaf or a design line other than the wanted one: how many members the two have in common from the first on.
    DesignDiffers { place: i64 },
    /// An entry where a leaf must follow.
    DesignWanted,
    /// A line after the log was closed, or after a fault.
    AfterClose,
    /// The log isn't closed at its end.
    OpenAtEnd,
    /// A dossier that doesn't begin where the one before it ended.
    ChainBroken,
    /// A source other than the first one.
    SourceDiffers,
    /// A leaf where none is wanted.
    NotEntry,
}

/// What a checker answers to a line of a log.
#[derive(Clone, Copy, Debug, Eq, PartialEq)]
pub enum Fed {
    /// It holds.
    Ok,
    /// A settled entry that holds: its leaf must follow.
    WantsDesign,
    /// It breaks a rule. From then on every line is `AfterClose`.
    Fault(LogFault),
}
