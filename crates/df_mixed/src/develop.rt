// The development of a mixed family, one block after another.
ghost use Rattle.std.specs.Prelude.{◌≡◌, ◌≤◌, ◌∷◌, [], length, All, MatchOption};
ghost use Rattle.df_lang.specs.Problems.{IsBlock, point_count};
ghost use Rattle.df_mixed.specs.MixedTables.{mixed_development};

use crate::pairs::stated_shifts;
use df_family::Develop;
use df_lang::Problem;
use df_subsets::Block;
use std::marker::Model;

/// What remains of the development of a problem's family by its stated shifts, seen as the list of its blocks.
#[derive(Drop)]
pub struct DevelopUnder<'a> {
    develop: Develop<'a>,
}

impl<'a> Model for DevelopUnder<'a> {
    ghost use Rattle.std.specs.Prelude.{List, ℕ};

    ghost Value = { List (List ℕ) };

    ghost view = { λ d. d.develop };
}

impl<'a> DevelopUnder<'a> {
    /// The whole development: of each block of the family, in the order of the source, its translates by the shifts, in their order.
    /// Of a short block each translate comes once, where it comes first.
    pub fn new(problem: &'a Problem) -> DevelopUnder<'a>
        ensures whole { result ≡ mixed_development problem.now }
        ensures blocks { All (IsBlock (point_count problem.now) problem.now.sizes) (mixed_development problem.now) }
        ensures sizes { All (λ block. length block ≤ 16) (mixed_development problem.now) }
    {
        let shifts = stated_shifts(problem);
        DevelopUnder {
            develop: Develop::under(problem, shifts),
        }
    }

    /// The first block of what remains, which it leaves. `None` exactly where nothing remains, and then at each later call.
    pub fn next(&mut self) -> Option<Block>
        ensures { MatchOption result ((self.old ≡ []) × (self.new ≡ [])) (λ block. self.old ≡ block ∷ self.new) }
    {
        self.develop.next()
    }
}
