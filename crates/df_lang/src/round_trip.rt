// What is printed is read back: laws, each the contract of a function that changes nothing.
ghost use Rattle.std.specs.Prelude.{◌≡◌, Ok};
ghost use Rattle.df_io.specs.Joined.{text_of};
ghost use Rattle.df_lang.specs.Canonical.{canonical};
ghost use Rattle.df_lang.specs.RoundTrip.{CanonicalLinesReadBack, CanonicalLinesAreLines, PointsReadBack};
ghost use Rattle.df_lang.specs.Sources.{source};

use crate::problem::Problem;

/// The canonical lines of a problem, each ended by a line feed, are a source that states the problem.
pub fn canonical_lines_are_read_back()
    ensures { CanonicalLinesReadBack }
{}

/// The same of one problem.
pub fn problem_is_read_back(problem: &Problem)
    ensures { source (text_of (canonical problem.now)) ≡ Ok problem.now }
{
    canonical_lines_are_read_back();
    let _version = problem.version;
}

/// No canonical line of a problem has a line feed: each is a line.
pub fn canonical_lines_are_lines()
    ensures { CanonicalLinesAreLines }
{}

/// The texts that `put_block` writes of a block's points are tokens, which `read_point` reads as these points.
pub fn points_are_read_back()
    ensures { PointsReadBack }
{}
