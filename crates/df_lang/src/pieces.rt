// The pieces of a problem.
use arrayvec::ArrayVec;
use df_subsets::Block;

/// The name of a subgroup: 1 to 16 letters, digits and underscores, of which the first is a letter.
pub type Name = ArrayVec<u8, 16>;

/// A subgroup: the group, the subgroup of 0 alone, or a named one.
#[derive(Clone, Copy, Debug, PartialEq, Eq)]
pub enum Which {
    /// The whole group.
    All,
    /// The subgroup of 0 alone.
    Trivial,
    /// The named subgroup of this number, from 0, in the order of the names' lines.
    Named(u32),
}

/// How a block is developed.
#[derive(Clone, Copy, Debug, PartialEq, Eq)]
pub enum Kind {
    /// By each element of the group, with repeats.
    Base,
    /// To its distinct translates.
    Short,
}

/// A block of the family.
#[derive(Clone, Copy)]
pub struct Member {
    /// How it is developed.
    pub kind: Kind,
    /// Its points.
    pub block: Block,
}

/// The target inside the cosets of a subgroup.
#[derive(Clone, Copy, Debug, PartialEq, Eq)]
pub struct Inside {
    /// The subgroup whose cosets are meant.
    pub subgroup: Which,
    /// The target of two elements of one coset, at most `MOST_TARGET`.
    pub target: u32,
}

/// The keyword with which a statement begins.
#[derive(Clone, Copy, Debug, PartialEq, Eq)]
pub(crate) enum Keyword {
    Group,
    Fixed,
    Subgroup,
    Shift,
    Mult,
    Size,
    Lambda,
    Inside,
    Hole,
    Base,
    Short,
    Require,
    Forbid,
}
