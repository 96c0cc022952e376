// The laws of difference families, each as the contract of a function without a body.
ghost use Rattle.df_family.specs.Covers.{CoverLaw, PairDivisionLaw};
ghost use Rattle.df_family.specs.FamilyLaws.{BalanceLaw, VerdictLaw, DivisionLaw, LengthLaw, OccurrenceLaw, PreimageLaw};

/// Each row of the difference table is found as often as is stated exactly where the development is balanced.
pub fn table_tells_balance()
    ensures { BalanceLaw }
{}

/// A verdict accepts exactly where the development is balanced.
pub fn verdict_tells_balance()
    ensures { VerdictLaw }
{}

/// The development under a subgroup holds two points as often as the family has them.
pub fn covers_are_found()
    ensures { CoverLaw }
{}

/// The division of a short block's numbers leaves no rest: in each row it occurs a multiple of as often as translations fix it,
/// and it has two points a multiple of as often as shifts fix it.
pub fn division_leaves_no_rest()
    ensures rows { DivisionLaw }
    ensures pairs { PairDivisionLaw }
{}

/// A block has as many different translates under a subgroup as its order, divided by the number of its elements that fix the block.
pub fn translates_divide_the_order()
    ensures { LengthLaw }
{}

/// The development of a short block by increasing elements is the list of all its translates, of which each stays only where it first occurs.
pub fn short_blocks_keep_first_occurrences()
    ensures { OccurrenceLaw }
{}

/// A translate by g holds the points that the translation by -g carries into the block.
pub fn translates_hold_preimages()
    ensures { PreimageLaw }
{}
