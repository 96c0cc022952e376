// Dossiers that ended spent, read whole: where a search goes on.
//
// A dossier is gone through once, line by line. Beside the line at hand its source lines are kept until the last of
// them has come, and from then on the problem that they state. Entries and designs are judged and not kept.
ghost use Rattle.std.specs.Prelude.{◌≡◌, ◌≤◌, length};
ghost use Rattle.df_dossier.specs.Spent.{GivesSpent, spent};
ghost use Rattle.df_dossier.specs.declared.spent.SpentError.TheVariants.{OutOfMemory};

use crate::judge::DossierFault;
use crate::stages::Stage;
use df_io::{Lines, MOST_BYTES};
use df_lang::Problem;
use df_system::Path;
use df_walk::Rules;
use std::alloc::{AllocError, AllocFailed, Global};

/// What a dossier says that ended spent: how to go on.
#[derive(Drop)]
pub struct Spent {
    /// The problem of its source lines.
    pub problem: Problem,
    /// The path of its end line, at which the search goes on.
    pub path: Path,
    /// The rules that its head names.
    pub rules: Rules,
}

/// Why an input isn't read as a dossier that ended spent.
#[derive(Clone, Copy, Debug, PartialEq, Eq)]
pub enum SpentError {
    /// A line breaks a rule: its number, from 1, or 0 for the end of the input, and the first rule that it breaks.
    Refused { line: u64, fault: DossierFault },
    /// The allocator had no memory left.
    OutOfMemory,
}

impl<T: Drop> From<AllocFailed<T>> for SpentError {
    ghost from_gives = { λ _ e. e ≡ OutOfMemory };

    fn from(_: AllocFailed<T>) -> Self {
        SpentError::OutOfMemory
    }
}

impl From<AllocError> for SpentError {
    ghost from_gives = { λ _ e. e ≡ OutOfMemory };

    fn from(_: AllocError) -> Self {
        SpentError::OutOfMemory
    }
}

/// The problem, the path and the rules of an input that is one dossier and ended spent. `Refused` tells the first line
/// that breaks a rule, and the rule. The input has at most `MOST_BYTES` bytes. `OutOfMemory` may come at any line.
pub fn read_spent(alloc: Global, input: &[u8]) -> Result<Spent, SpentError>
    requires { length input.now ≤ MOST_BYTES }
    ensures { GivesSpent (spent input.now) result }
{
    let mut stage = Stage::Head;
    let mut lines = Lines::new(input);
    while let Some(line) = lines.next() {
        match stage.line(alloc, line.number, &input[line.start..line.end]) {
            Ok(next) => stage = next,
            Err(error) => return Err(error),
        }
    }
    stage.end()
}
