// Why a path is no node: a law, the contract of a function that does nothing.
ghost use Rattle.df_search.specs.Reasons.{PathsHaveReasons};

/// A path is a node exactly where there is no reason against it (`why_no_node`), and the reason is what `Search::resume` gives.
pub fn paths_have_reasons()
    ensures { PathsHaveReasons }
{}
