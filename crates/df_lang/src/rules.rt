// Problems keep their rules: laws, each the contract of a function that changes nothing.
ghost use Rattle.df_lang.specs.Problems.{IsStated};
ghost use Rattle.df_lang.specs.RulesLaw.{SourcesKeepTheirRules};

use crate::problem::Problem;

/// A source of at most 4,294,967,296 bytes states no problem but one that keeps its rules.
pub fn sources_keep_their_rules()
    ensures { SourcesKeepTheirRules }
{}

/// A problem keeps the rules of problems.
pub fn problems_keep_their_rules(problem: &Problem)
    ensures { IsStated problem.now }
{
    let _version = problem.version;
}
