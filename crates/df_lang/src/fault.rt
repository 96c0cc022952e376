// What is wrong with a source, and where.
ghost use Rattle.std.specs.Prelude.{◌≡◌};
ghost use Rattle.df_lang.specs.declared.fault.Stop.TheVariants.{Fault, OutOfMemory};

use std::alloc::{AllocError, AllocFailed};

/// A statement that each source needs.
#[derive(Clone, Copy, Debug, PartialEq, Eq)]
pub enum Needed {
    /// `group`
    Group,
    /// `k`
    Size,
    /// `lambda`
    Lambda,
}

/// What is wrong with a line.
#[derive(Clone, Copy, Debug, PartialEq, Eq)]
pub enum SourceFault {
    /// No keyword of a statement, no name, a token too many, or none where one is needed.
    BadWord,
    /// No number of 64 bits, or a version other than 2.
    BadNumber,
    /// No element of the group, or, in a block, no point.
    BadElement,
    /// A statement that may come once stands above already.
    Repeated,
    /// No subgroup has this name.
    UnknownName,
    /// The name is reserved, or a subgroup above has it.
    NameTaken,
    /// The multiplier isn't prime to the exponent of the group.
    NotUnit,
    /// The point stands in the block already.
    PointTwice,
    /// The block has a number of points that isn't stated.
    BlockSize,
    /// A statement is wanting: above this line, or in the whole source.
    Missing(Needed),
    /// The factor isn't from 2 to 128, or the group would have more than 128 elements.
    GroupRange,
    /// There are more than 16 fixed points, or more than 128 points.
    FixedRange,
    /// The size isn't from 2 to 16, or is above the number of points.
    SizeRange,
    /// The target is above `MOST_TARGET`.
    TargetRange,
    /// `MOST_BLOCKS` blocks of the kind stand above.
    TooManyBlocks,
}

/// The first line that is wrong, from 1, or 0 for the end of the source.
#[derive(Clone, Copy, Debug, PartialEq, Eq)]
pub struct SourceError {
    /// The number of the line, from 1, or 0.
    pub line: u64,
    /// The first rule that it breaks.
    pub fault: SourceFault,
}

/// Why a source isn't read.
#[derive(Clone, Copy, Debug, PartialEq, Eq)]
pub enum ParseError {
    /// The source breaks a rule.
    Refused(SourceError),
    /// The allocator had no memory left.
    OutOfMemory,
}

/// Why a line isn't taken.
#[derive(Clone, Copy, Debug, PartialEq, Eq)]
pub(crate) enum Stop {
    Fault(SourceFault),
    OutOfMemory,
}

impl From<SourceFault> for Stop {
    ghost from_gives = { λ f e. e ≡ Fault f };

    fn from(fault: SourceFault) -> Self {
        Stop::Fault(fault)
    }
}

impl<T: Drop> From<AllocFailed<T>> for Stop {
    ghost from_gives = { λ _ e. e ≡ OutOfMemory };

    fn from(_: AllocFailed<T>) -> Self {
        Stop::OutOfMemory
    }
}

impl From<AllocError> for Stop {
    ghost from_gives = { λ _ e. e ≡ OutOfMemory };

    fn from(_: AllocError) -> Self {
        Stop::OutOfMemory
    }
}
