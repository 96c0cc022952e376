// The pieces of an input are the parts of its dossiers: a law, the contract of a function that does nothing.
ghost use Rattle.df_dossier.specs.DossierPieces.{PiecesOfDossiers};

/// The pieces that `LineReader` and `LineJudge` tell of lines are the parts that the grammar gives these lines, where it
/// reads nothing of what source lines state, of paths and of designs: one dossier after another, up to the first line
/// that breaks a rule, of which both tell the number and the fault.
pub fn pieces_are_those_of_dossiers()
    ensures { PiecesOfDossiers }
{}
