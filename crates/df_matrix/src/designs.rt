// What the solutions of an orbit matrix are: a law, the contract of a function without effect.
ghost use Rattle.std.specs.Prelude.{◌≡◌, Bool, List, map};
ghost use Rattle.df_walk.specs.Solutions.{solutions};
ghost use Rattle.df_kramer_mesner.specs.OrbitSystems.{columns_of, orbit_system};
ghost use Rattle.df_families.specs.Families.{picked};
ghost use Rattle.df_correspondence.specs.Designs.{asked, base, design};

use crate::matrix::OrbitMatrix;
use df_correspondence::{base_is_chosen, designs_are_solutions};
use df_lang::problems_keep_their_rules;

/// The theorem of Kramer and Mesner for an orbit matrix: the designs that its problem asks for, in
/// their order, are the designs of the solutions of its system, in theirs; and the base blocks of
/// the design of a 0-1 vector are the columns that the vector chooses, in order.
pub fn matrix_tells_designs(matrix: &OrbitMatrix)
    ensures designs { asked matrix.now
        ≡ map (design matrix.now) (solutions (orbit_system matrix.now)) }
    ensures bases { (x : List Bool)
        → base matrix.now (design matrix.now x) ≡ picked (columns_of matrix.now) x }
{
    problems_keep_their_rules(matrix.problem());
    designs_are_solutions();
    base_is_chosen();
}
