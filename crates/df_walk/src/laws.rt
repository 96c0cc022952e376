ghost use Rattle.df_walk.specs.LawStatements.{
  DecisionsChange,
  SolutionsBoundNeeds,
  PathsHaveDivisors,
  SumsAreBounded,
  PathsSplit,
  ColumnsSplit,
  SettledIsOne,
  SolutionsAreDistinct,
  WalksAreWhole,
  WalksCutAtNodes,
  LogsAreComplete,
  WalksAreLogs,
  LogsComplete,
  PathsAreRead,
  ColumnsAreNoWider,
};

/// What a decision does to each row's need and cap.
pub fn decisions_change()
    ensures { DecisionsChange }
{}

/// A solution that keeps the decisions has each need from 0 to its cap, and a multiple of the divisor.
pub fn solutions_bound_needs()
    ensures { SolutionsBoundNeeds }
{}

/// The divisor of a row at a path is that of its columns past the path.
pub fn paths_have_divisors()
    ensures { PathsHaveDivisors }
{}

/// Needs and caps are no greater than the greatest entry, once for each column.
pub fn sums_are_bounded()
    ensures { SumsAreBounded }
{}

/// The solutions that extend a path with yes and those that extend it with no are, in this order, those that extend it.
pub fn paths_split()
    ensures { PathsSplit }
{}

/// The solutions that keep one more decision and those that keep its opposite are, each once, those that keep neither.
pub fn columns_split()
    ensures { ColumnsSplit }
{}

/// Where all needs are 0 there is one solution.
pub fn settled_is_one()
    ensures { SettledIsOne }
{}

/// No solution is listed twice.
pub fn solutions_are_distinct()
    ensures { SolutionsAreDistinct }
{}

/// The walk from the empty path visits every solution and every node once, in order, by both sets of rules.
pub fn walks_are_whole()
    ensures { WalksAreWhole }
{}

/// Where a walk is cut at any node, the solutions before the cut followed by the rest of the node are the solutions, and the loads add up.
pub fn walks_cut_at_nodes()
    ensures { WalksCutAtNodes }
{}

/// Whatever the order of branching, a log that proves a list from nothing decided lists each solution once and nothing else.
pub fn logs_are_complete()
    ensures { LogsAreComplete }
{}

/// The walk's own entries are a log that proves its solutions.
pub fn walks_are_logs()
    ensures { WalksAreLogs }
{}

/// The logs of several assignments, one after the other, are judged entry by entry.
pub fn logs_complete()
    ensures { LogsComplete }
{}

/// What is written of a path gives it back, and what is read of a written path is written so again.
pub fn paths_are_read()
    ensures { PathsAreRead }
{}

/// No column has more positive entries than the widest.
pub fn columns_are_no_wider()
    ensures { ColumnsAreNoWider }
{}
