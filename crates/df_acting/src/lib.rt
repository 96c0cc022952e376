//! Lists of maps that act on things of one kind: the orbits that they make, the earliest members, and the counts over two kinds.
//! It stands on df_lists and has no code that runs: each public function has an empty body, and its contract is a law.
//! The crates above cite the words of its specs/ and its laws.
//! Laws for the rooms above: proofs/OrbitLaws, proofs/RepresentativeLaws, proofs/ImageLaws, proofs/OntoLists, proofs/StabilizerLaws.
#![tactic(auto)]

ghost use Rattle.std.specs.Prelude.{ℕ};
ghost use Rattle.df_acting.specs.Laws.{ImagesAreMoved, RepresentativesAreOne, EntriesAreQuotients};

/// A group of maps of the points is one of maps of the sets of points, and keeps how many points a set has.
pub fn images_are_moved()
    ensures { ImagesAreMoved (ℕ × ℕ) }
{}

/// Each orbit has one earliest member: the earliest image of each of its members.
pub fn representatives_are_one()
    ensures { RepresentativesAreOne (ℕ × ℕ) }
{}

/// The number of blocks of one orbit that hold x, times the size of the orbit of x, is the size of that orbit of blocks times the number of things of the orbit of x in one of them.
/// The number is the same for all of the orbit of x.
pub fn entries_are_quotients()
    ensures { EntriesAreQuotients (ℕ × ℕ) }
{}
