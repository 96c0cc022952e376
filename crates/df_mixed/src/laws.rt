// The laws of mixed families, each as the contract of a function without a body.
ghost use Rattle.df_mixed.specs.MixedLaws.{PairTableLaw, KeptPairsLaw, OneRowLaw, WholeGroupLaw};

/// Each row of the table of pairs is found as often as is stated exactly where the development by the subgroup is balanced.
pub fn pair_table_tells_balance()
    ensures { PairTableLaw }
{}

/// A shift carries a pair of points to one that is found as often and that has the same target.
pub fn translations_keep_pairs()
    ensures { KeptPairsLaw }
{}

/// Each orbit of pairs has exactly one row.
pub fn orbits_have_one_row()
    ensures { OneRowLaw }
{}

/// Where the stated shifts are all elements, the verdict on a mixed family is that on a difference family.
pub fn whole_group_is_verified()
    ensures { WholeGroupLaw }
{}
