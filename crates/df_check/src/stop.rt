// Why judging ends before its input does.
ghost use Rattle.std.specs.Prelude.{◌≡◌};
ghost use Rattle.df_check.specs.declared.stop.Stop.TheVariants.{OutOfMemory};

use crate::LogFault;
use df_dossier::DossierFault;
use df_matrix::MatrixError;
use std::alloc::AllocFailed;

/// Why judging ends before its input does, or at its end without a verdict.
#[derive(Clone, Copy, Debug, Eq, PartialEq)]
pub enum Stop {
    /// The line of this number is no line of a dossier where it stands; number 0 is the end of the input.
    BadLine { line: u64, fault: DossierFault },
    /// The line of this number breaks a rule of the log or of chains.
    BadLog { line: u64, fault: LogFault },
    /// The source that ends with the line of this number states a problem that passes this limit.
    Above { line: u64, error: MatrixError },
    /// The allocator had no memory left.
    OutOfMemory,
}

impl<T: Drop> From<AllocFailed<T>> for Stop {
    ghost from_gives = { λ _ e. e ≡ OutOfMemory };

    fn from(_: AllocFailed<T>) -> Self {
        Stop::OutOfMemory
    }
}
