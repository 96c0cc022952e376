// What is printed is read back: laws, each the contract of a function that changes nothing.
ghost use Rattle.df_tell.specs.OwnLogs.{OwnLogsAreChains};
ghost use Rattle.df_tell.specs.RunBack.{SpentTextsReadBack};

use df_correspondence::{base_is_chosen, designs_are_solutions};
use df_dossier::{
    designs_are_read_back, dossiers_are_read_back, paths_may_stand, texts_are_read_back,
};
use df_families::vectors_pick;
use df_kramer_mesner::{
    columns_are_sparse, entries_are_counts, orbit_systems_are_systems, orbits_are_kept,
    rows_are_pairs_and_needed,
};
use df_lang::{canonical_lines_are_lines, canonical_lines_are_read_back, points_are_read_back};
use df_maps::{maps_are_groups, maps_are_made};
use df_orbits::representatives_tell_orbits;
use df_runs::laws::{chains_are_logs, chains_are_whole, runs_are_whole, runs_stop_first};
use df_subsets::{blocks_are_ordered, blocks_are_sets, candidates_are_all, subsets_are_all};

/// The text of a run that was spent is read as one spent dossier: of the same problem and the same rules, and its path is the
/// one at which the run stopped. What was shown makes no difference.
pub fn spent_texts_are_read_back()
    ensures { SpentTextsReadBack }
{
    runs_are_whole();
    runs_stop_first();
    orbit_systems_are_systems();
    rows_are_pairs_and_needed();
    orbits_are_kept();
    columns_are_sparse();
    entries_are_counts();
    blocks_are_sets();
    subsets_are_all();
    candidates_are_all();
    canonical_lines_are_read_back();
    canonical_lines_are_lines();
    points_are_read_back();
    designs_are_read_back();
    texts_are_read_back();
    paths_may_stand();
}

/// The texts of a chain of runs, each with its log, are joined a chain of dossiers: `solve` and then `resume` over the text
/// before, with any budgets, the blocks of designs shown or not, and the last run finished. Its problem is that of the runs,
/// and its designs are all that are asked for, in their order. So a checker of chains accepts what a search wrote.
pub fn own_logs_are_chains()
    ensures { OwnLogsAreChains }
{
    runs_are_whole();
    runs_stop_first();
    chains_are_logs();
    chains_are_whole();
    orbit_systems_are_systems();
    rows_are_pairs_and_needed();
    orbits_are_kept();
    columns_are_sparse();
    entries_are_counts();
    blocks_are_sets();
    blocks_are_ordered();
    subsets_are_all();
    candidates_are_all();
    canonical_lines_are_read_back();
    canonical_lines_are_lines();
    points_are_read_back();
    designs_are_read_back();
    dossiers_are_read_back();
    paths_may_stand();
    maps_are_made();
    maps_are_groups();
    representatives_tell_orbits();
    vectors_pick();
    base_is_chosen();
    designs_are_solutions();
}
