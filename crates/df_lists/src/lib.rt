//! Sums, counts, sets of numbers, least members: the words on lists that several crates share, with their laws.
//! It stands on std alone and has no code that runs: each public function has an empty body, and its contract is a law.
//! The crates above cite the words of its specs/ and its laws.
//! Laws for the rooms above: proofs/BitLaws, proofs/CountLaws, proofs/LeastLaws, proofs/ListPlaces, proofs/ListTotals,
//! proofs/MemberLaws, proofs/RangeLaws, proofs/RisingLists, proofs/SetLaws, proofs/SortedLists, proofs/TestLaws, proofs/TotalLaws.
#![tactic(auto)]

ghost use Rattle.df_lists.specs.Totals.{TotalsSwap, TotalsTurn};
ghost use Rattle.df_lists.specs.LeastMembers.{LeastsLaw, OntoLaw};

/// Two sums over ranges of numbers change places.
pub fn totals_swap()
    ensures { TotalsSwap }
{}

/// A sum may be taken along any map of its range that can be taken back.
pub fn totals_turn()
    ensures { TotalsTurn }
{}

/// A sum whose terms agree at equivalent numbers, each with the same number of them, is that number times the sum over
/// the least members.
pub fn sums_over_least_members()
    ensures { LeastsLaw }
{}

/// A map of a finite range into itself that sends no two numbers to one comes to each number.
pub fn one_to_one_maps_are_onto()
    ensures { OntoLaw }
{}
