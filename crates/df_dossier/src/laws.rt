// What is written is read back: laws, each the contract of a function that does nothing.
ghost use Rattle.df_dossier.specs.RoundTrips.{EntriesReadBack, PathsReadBack, EndsReadBack};
ghost use Rattle.df_dossier.specs.DesignsBack.{DesignsReadBack};
ghost use Rattle.df_dossier.specs.DossierTexts.{SpentReadBack};
ghost use Rattle.df_dossier.specs.TextsBack.{TextsReadBack};
ghost use Rattle.df_dossier.specs.DossiersBack.{DossiersReadBack};
ghost use Rattle.df_dossier.specs.RunPaths.{PathsMayStand};
ghost use Rattle.df_dossier.specs.SpentRules.{SpentKeepTheirRules};

use df_lang::points_are_read_back;

/// `read_entry` gives back each entry that `put_entry` writes: by either rules a branch, a row over
/// or under and a settled one, and by the divisor's rules residues and cuts too.
#[tactic(auto, using(crate::proofs::EntriesBack::entries_back))]
pub fn entries_are_read_back()
    ensures { EntriesReadBack }
{}

/// `read_path` gives back each path, from its `from` line and from its `end` line.
pub fn paths_are_read_back()
    ensures { PathsReadBack }
{}

/// `LineJudge` gives back what `put_end` writes, of a spent run with any path behind it.
#[tactic(auto, using(crate::proofs::EndsBack::ends_back))]
pub fn ends_are_read_back()
    ensures { EndsReadBack }
{}

/// `read_design` gives back the blocks of a problem whose line `put_design_start` and `put_design_block` write.
pub fn designs_are_read_back()
    ensures { DesignsReadBack }
{
    points_are_read_back();
}

/// The lines of a spent dossier, put together from its parts, are read as its problem, its path and its rules: whatever
/// source lines state the problem, with entries, designs and comments in any order.
pub fn spent_dossiers_are_read_back()
    ensures { SpentReadBack }
{}

/// The same of their text, each line ended by a line feed, where no source line, design line and comment has one.
pub fn texts_are_read_back()
    ensures { TextsReadBack }
{}

/// A whole dossier, which finished or was cut, put together from its parts and at any place of a longer text: its bytes are
/// its lines, the judge says of each line the piece that it is, and they are read as the dossier of these parts, up to the
/// number of its end line.
pub fn dossiers_are_read_back()
    ensures { DossiersReadBack }
{}

/// A path of decisions whose length is at most `MOST_NUMBER` may stand in a dossier, as the yes columns that it has.
pub fn paths_may_stand()
    ensures { PathsMayStand }
{}

/// A dossier of at most `MOST_BYTES` bytes that ended spent states no problem but one that keeps its rules.
pub fn spent_dossiers_keep_their_rules()
    ensures { SpentKeepTheirRules }
{}
