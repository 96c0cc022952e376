// The base blocks of a design: the representatives of the columns that its vector chooses, which stand in increasing order.
// The vector is passed once, from its first column to its last, and a base block takes one look at the matrix beside that.
ghost use Rattle.std.specs.Prelude.{◌≡◌, ◌∷◌, [], ◌≤◌, ◌<◌, ℕ, false, length, slice_index_or, MatchOption, IfSome, IsNone};
ghost use Rattle.df_kramer_mesner.specs.OrbitSystems.{columns_of};
ghost use Rattle.df_families.specs.Families.{picked};
ghost use Rattle.df_design.specs.LeftBlocks.{IsFirstYes};

use df_matrix::OrbitMatrix;
use df_subsets::Block;
use std::marker::Model;

/// The base blocks of a design that are left, increasing. Contracts see it as their list.
#[derive(Drop)]
pub struct Reps<'d> {
    matrix: &'d OrbitMatrix,
    chosen: &'d [bool],
    columns: u32,
    column: u32,
}

impl<'d> Model for Reps<'d> {
    ghost use Rattle.std.specs.Prelude.{List, ℕ};
    ghost use Rattle.df_design.specs.LeftBlocks.{chosen_from, AreChosen};

    ghost Value = { List (List ℕ) };

    ghost view = { λ r. chosen_from r.matrix.now r.chosen.now r.column };

    ghost invariant = { λ r. AreChosen r.matrix.now r.chosen.now r.columns r.column };
}

// The first place of a 1, if there is one.
fn first_chosen(chosen: &[bool]) -> Option<usize>
    ensures none { IsNone result → (k : ℕ) → k < length chosen.now → slice_index_or chosen.now k false ≡ false }
    ensures some { IfSome result (λ k. IsFirstYes chosen.now k) }
{
    for (place, yes) in chosen.iter().enumerate() {
        if *yes {
            return Some(place);
        }
    }
    None
}

impl<'d> Reps<'d> {
    /// The base blocks of the columns that a vector chooses, which has a value for each column.
    pub(crate) fn new(matrix: &'d OrbitMatrix, chosen: &'d [bool]) -> Reps<'d>
        requires { length chosen.now ≡ length (columns_of matrix.now) }
        ensures { result ≡ picked (columns_of matrix.now) chosen.now }
    {
        Reps {
            matrix,
            chosen,
            columns: matrix.system().columns(),
            column: 0,
        }
    }

    /// The first base block that is left, which it leaves. `None` exactly where none is left, and then at each later call.
    pub fn next(&mut self) -> Option<Block>
        ensures block { MatchOption result ((self.old ≡ []) × (self.new ≡ [])) (λ block. self.old ≡ block ∷ self.new) }
        ensures size { IfSome result (λ block. length block ≤ 16) }
    {
        match first_chosen(&self.chosen[self.column as usize..]) {
            None => None,
            Some(skipped) => {
                let column = self.column + skipped as u32;
                self.column = column + 1;
                Some(self.matrix.column_block(column))
            }
        }
    }
}
