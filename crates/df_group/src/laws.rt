// Laws of elements, multiples, units and subgroups: functions that do nothing, each with a law as its contract.
ghost use Rattle.df_group.specs.Places.{ElementsLaw, GroupLaw};
ghost use Rattle.df_group.specs.Multiples.{MultiplesLaw, UnitsLaw};
ghost use Rattle.df_group.specs.ClosedSets.{SubgroupsLaw};

/// The number of an element is its place in the list of all elements.
pub fn elements_are_numbered()
    ensures { ElementsLaw }
{}

/// Sums place by place make a finite abelian group on the numbers.
pub fn products_are_groups()
    ensures { GroupLaw }
{}

/// Integer multiples add, distribute and compose, and only the remainder by the exponent counts.
pub fn multiples_are_multiples()
    ensures { MultiplesLaw }
{}

/// Multiplying by a unit is undone by multiplying by a unit.
pub fn units_are_undone()
    ensures { UnitsLaw }
{}

/// Subgroups are the sets with 0 that sums don't leave, and their canonical generators, at most 7, generate them.
pub fn subgroups_are_closed()
    ensures { SubgroupsLaw }
{}
