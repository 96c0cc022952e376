ghost use Rattle.df_check.specs.ChainLaws.{ChainsListAllDesigns};
ghost use Rattle.df_check.specs.DesignLaws.{
  DesignsTellColumns,
  DesignLinesCloseProofs,
  ClosedDesignsAreAsked,
};

use crate::laws::{closed_lines_are_whole, lines_close_proofs};
use df_correspondence::{base_is_chosen, designs_are_solutions};
use df_families::vectors_pick;
use df_kramer_mesner::{orbit_systems_are_systems, orbits_are_numbered};
use df_maps::{maps_are_groups, maps_are_made};
use df_orbits::representatives_tell_orbits;
use df_subsets::blocks_are_ordered;

/// A list of columns is told by their representatives: where these are given, they differ from those
/// of the yes columns at the place where the columns do.
pub fn designs_tell_columns()
    ensures { DesignsTellColumns }
{
    blocks_are_ordered();
    orbits_are_numbered();
}

/// The lines that close a new `Checker` are exactly the logs that prove their leaves, with a design
/// line after each settled entry, which has the representatives of the columns of its leaf.
pub fn design_lines_close_proofs()
    ensures { DesignLinesCloseProofs }
{
    lines_close_proofs();
    blocks_are_ordered();
}

/// The designs of such lines are those that the problem asks for, each once and nothing else,
/// whatever the order of branching; and each line has the base blocks of its design.
pub fn closed_designs_are_asked()
    ensures { ClosedDesignsAreAsked }
{
    closed_lines_are_whole();
    maps_are_made();
    maps_are_groups();
    blocks_are_ordered();
    representatives_tell_orbits();
    vectors_pick();
    orbit_systems_are_systems();
    base_is_chosen();
    designs_are_solutions();
}

/// The designs of a chain of dossiers are those that its problem asks for, each once and nothing else, in whatever order
/// its logs branch and wherever they are cut.
pub fn chains_list_all_designs()
    ensures { ChainsListAllDesigns }
{
    design_lines_close_proofs();
    closed_designs_are_asked();
}
