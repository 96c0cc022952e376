// Laws of blocks: functions of empty body, each with a law as its contract.
ghost use Rattle.df_subsets.specs.SetLaws.{AreSets, AreExtended};
ghost use Rattle.df_subsets.specs.SubsetLaws.{AreOrdered, SubsetsAreAll, RanksArePlaces, CandidatesAreAll};

/// Blocks are the sets of numbers below a bound, and two blocks with the same points are one.
pub fn blocks_are_sets()
    ensures { AreSets }
{}

/// What a block is with one more point.
pub fn blocks_are_extended()
    ensures { AreExtended }
{}

/// Blocks are told apart and ordered as lists, a proper prefix first.
pub fn blocks_are_ordered()
    ensures { AreOrdered }
{}

/// The list of all blocks of a size has each of them once, in order, and nothing else.
pub fn subsets_are_all()
    ensures { SubsetsAreAll }
{}

/// A block stands at its rank, and each place is the rank of the block that stands there.
pub fn ranks_are_places()
    ensures { RanksArePlaces }
{}

/// The list of all blocks of several sizes has each of them once, in order, and nothing else.
pub fn candidates_are_all()
    ensures { CandidatesAreAll }
{}
