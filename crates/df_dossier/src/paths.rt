// Paths, read from their lines.
ghost use Rattle.std.specs.Prelude.{◌≡◌, ◌++◌, [], option_map, IfOk, Err, None, Some};
ghost use Rattle.df_io.specs.Lines.{left};
ghost use Rattle.df_dossier.specs.Paths.{places_of, past as past_of, past_count as past_count_of};
ghost use Rattle.df_dossier.specs.Paths.{spent_path as spent_path_of, path_part as path_part_of};
ghost use Rattle.df_dossier.specs.Reads.{ReadsPath};
ghost use Rattle.df_dossier.specs.declared.paths.PathRead.TheVariants.{Bad, OutOfMemory};

use crate::numbers::{MOST_COUNT, number_within, place};
use df_io::Tokens;
use df_system::Path;
use std::alloc::{AllocFailed, Global};

/// Why a path isn't read.
#[derive(Clone, Copy, Debug, PartialEq, Eq)]
pub enum PathRead {
    /// The line isn't a `from` line or a spent `end` line with a path.
    Bad,
    /// There was no memory for the columns.
    OutOfMemory,
}

impl<T: Drop> From<AllocFailed<T>> for PathRead {
    ghost from_gives = { λ _ e. e ≡ OutOfMemory };

    fn from(_: AllocFailed<T>) -> Self {
        PathRead::OutOfMemory
    }
}

/// The path of a `from` line or of a spent `end` line. `Bad` exactly where the line is neither, or
/// what stands there isn't a path: a length and then columns that increase and are below it.
pub fn read_path(alloc: Global, line: &[u8]) -> Result<Path, PathRead>
    ensures { ReadsPath line.now result }
{
    let mut tokens = Tokens::new(line);
    if path_part(&mut tokens).is_none() {
        return Err(PathRead::Bad);
    }
    let Some(token) = tokens.next_token() else {
        return Err(PathRead::Bad);
    };
    let Some(length) = place(token) else {
        return Err(PathRead::Bad);
    };
    let columns = places(alloc, &mut tokens)?;
    match Path::new(length, columns) {
        Some(path) => Ok(path),
        None => Err(PathRead::Bad),
    }
}

// The numbers of columns that the tokens left are.
#[tactic(auto, unfolding(crate::specs::Paths::places_of))]
fn places(alloc: Global, tokens: &mut Tokens<'_>) -> Result<Vec<u32>, PathRead>
    ensures ok { IfOk result (λ columns. places_of (left tokens.old) ≡ Some columns.items) }
    ensures bad { result ≡ Err Bad → places_of (left tokens.old) ≡ None }
{
    let mut columns = Vec::new(alloc);
    while let Some(token) = tokens.next_token() {
        let Some(column) = place(token) else {
            return Err(PathRead::Bad);
        };
        columns.push(column)?;
    }
    Ok(columns)
}

// Passes a word.
pub(crate) fn past(tokens: &mut Tokens<'_>, word: &[u8]) -> Option<()>
    ensures { past_of word.now (left tokens.old) ≡ option_map (λ _. left tokens.new) result }
{
    if tokens.next_token()? == word {
        Some(())
    } else {
        None
    }
}

// Passes a count.
fn past_count(tokens: &mut Tokens<'_>) -> Option<()>
    ensures { past_count_of (left tokens.old) ≡ option_map (λ _. left tokens.new) result }
{
    number_within(0, MOST_COUNT, tokens.next_token()?)?;
    Some(())
}

// Passes what stands before the path of a spent end line, behind `end`.
#[tactic(auto, unfolding(crate::specs::Paths::spent_path))]
fn spent_path(tokens: &mut Tokens<'_>) -> Option<()>
    ensures { spent_path_of (left tokens.old) ≡ option_map (λ _. left tokens.new) result }
{
    past(tokens, b"spent")?;
    past(tokens, b"designs")?;
    past_count(tokens)?;
    past(tokens, b"nodes")?;
    past_count(tokens)?;
    past(tokens, b"next")
}

// Passes what stands before the path of a line.
fn path_part(tokens: &mut Tokens<'_>) -> Option<()>
    ensures { path_part_of (left tokens.old) ≡ option_map (λ _. left tokens.new) result }
{
    let word = tokens.next_token()?;
    if word == b"from".as_slice() {
        Some(())
    } else if word == b"end".as_slice() {
        spent_path(tokens)
    } else {
        None
    }
}
