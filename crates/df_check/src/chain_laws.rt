ghost use Rattle.df_check.specs.ChainLaws.{
  BasesAreRepresentatives,
  ChainsAreDecided,
  ChainsKeepTheirRules,
  LimitsAreOfProblems,
};

use crate::design_laws::{closed_designs_are_asked, design_lines_close_proofs};
use df_subsets::blocks_are_ordered;

/// Each design line of a chain of dossiers has the base blocks of its design.
pub fn bases_are_representatives()
    ensures { BasesAreRepresentatives }
{
    design_lines_close_proofs();
    closed_designs_are_asked();
}

/// An input of at most `MOST_BYTES` bytes is complete, line by line, exactly where its lines are a chain of dossiers, with the
/// number of its designs.
pub fn chains_are_decided()
    ensures { ChainsAreDecided }
{
    design_lines_close_proofs();
    blocks_are_ordered();
}

/// An input of at most `MOST_BYTES` bytes is a chain of no problem but one that keeps the rules of problems.
pub fn chains_keep_their_rules()
    ensures { ChainsKeepTheirRules }
{}

/// A limit for which an input of at most `MOST_BYTES` bytes is refused is one of a problem that keeps the rules of problems.
pub fn limits_are_of_problems()
    ensures { LimitsAreOfProblems }
{}
