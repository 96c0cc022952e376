// Why a problem is not worked out.
ghost use Rattle.std.specs.Prelude.{◌≡◌};
ghost use Rattle.df_run.specs.Limits.{IsCountable, limit_of, limited_to};

use df_matrix::MatrixError;
use df_tell::Limit;

/// Why a problem is not worked out.
#[derive(Clone, Copy, Debug, PartialEq, Eq)]
pub enum LimitError {
    /// The problem is above a limit.
    Above(Limit),
    /// Out of memory.
    OutOfMemory,
}

/// Why a problem has no orbit matrix, as a limit that it is above.
pub fn limited(error: MatrixError) -> LimitError
    requires { IsCountable error }
    ensures { result ≡ limited_to (limit_of error) }
{
    match error {
        MatrixError::TooManySubsets { points, size } => {
            LimitError::Above(Limit::Subsets { size, points })
        }
        MatrixError::TooManySummed { points, .. } => {
            LimitError::Above(Limit::SizedSubsets { points })
        }
        MatrixError::TooManyColumns { found } => LimitError::Above(Limit::Columns { found }),
        MatrixError::TooLarge { rows, columns } => {
            LimitError::Above(Limit::Entries {
                found: rows * columns,
            })
        }
        MatrixError::OutOfMemory => LimitError::OutOfMemory,
    }
}
