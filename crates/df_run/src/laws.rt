// Searches that go on one after another, and a check of what they wrote: laws, each the contract of a function that does nothing.
ghost use Rattle.df_run.specs.Chains.{ChainsAreAnswered, OwnLogsAreComplete};

use df_check::chain_laws::chains_are_decided;
use df_correspondence::designs_are_solutions;
use df_dossier::spent_dossiers_keep_their_rules;
use df_kramer_mesner::orbit_systems_are_systems;
use df_lang::sources_keep_their_rules;
use df_runs::laws::{chains_are_runs, runs_are_whole};
use df_search::paths_have_reasons;
use df_tell::{own_logs_are_chains, spent_texts_are_read_back};
use df_walk::laws::paths_are_read;

/// Where a search and then each `resume` reads the text that the one before wrote, the designs that they print, joined, are those
/// of one search with all their budgets: with the last one finished all that the problem asks for, each once and in order; and before
/// that these are what was printed, followed by the designs from the last place on. The nodes add up.
pub fn chains_are_answered()
    ensures { ChainsAreAnswered }
{
    sources_keep_their_rules();
    spent_dossiers_keep_their_rules();
    orbit_systems_are_systems();
    runs_are_whole();
    chains_are_runs();
    paths_have_reasons();
    paths_are_read();
    spent_texts_are_read_back();
    designs_are_solutions();
}

/// Where a search and then each `resume` reads the text that the one before wrote, each with its log, and the last one is finished,
/// `check` answers to their texts, joined, that they are complete, with the number of all designs that the problem asks for. The first
/// is a `solve`, or a `resume` of a dossier whose path is the empty one.
pub fn own_logs_are_complete()
    ensures { OwnLogsAreComplete }
{
    chains_are_answered();
    own_logs_are_chains();
    chains_are_decided();
    sources_keep_their_rules();
    spent_dossiers_keep_their_rules();
}
