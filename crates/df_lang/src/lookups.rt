// Names of subgroups, looked up in the table.
ghost use Rattle.std.specs.Prelude.{◌≡◌, ◌≤◌, ◌<◌, length, map, All, Ok, Err, MatchResult, IfSome, IfOk, None};
ghost use Rattle.df_lang.specs.Problems.{Named};
ghost use Rattle.df_lang.specs.Stored.{named};
ghost use Rattle.df_lang.specs.Values.{place_of, name_of, which_of};

use crate::fault::SourceFault;
use crate::names::{is_name, is_reserved, name};
use crate::pieces::{Name, Which};
use crate::problem::NAMES_LIMIT;
use df_group::Subgroup;
use indexmap::IndexMap;

/// The place of a name in the table.
fn place(names: &IndexMap<Name, Subgroup>, token: &[u8]) -> Option<usize>
    requires { All (λ (n : Named). length n.0 ≤ 16) (map named names.now.entries) }
    ensures place { result ≡ place_of (map named names.now.entries) token.now }
    ensures within { IfSome result (λ i. i < length names.now.entries) }
{
    if token.len() > 16 {
        return None;
    }
    names.get_index_of(&name(token))
}

/// A new name.
#[tactic(auto, unfolding(crate::specs::Values::name_of))]
pub(crate) fn new_name(names: &IndexMap<Name, Subgroup>, token: &[u8]) -> Result<Name, SourceFault>
    requires { All (λ (n : Named). length n.0 ≤ 16) (map named names.now.entries) }
    ensures value { MatchResult result (λ new. name_of (map named names.now.entries) token.now ≡ Ok new.items)
        (λ fault. name_of (map named names.now.entries) token.now ≡ Err fault) }
    ensures absent { IfOk result (λ new. place_of (map named names.now.entries) new.items ≡ None) }
    ensures short { IfOk result (λ new. length new.items ≤ 16) }
{
    if !is_name(token) {
        return Err(SourceFault::BadWord);
    }
    if is_reserved(token) || place(names, token).is_some() {
        return Err(SourceFault::NameTaken);
    }
    Ok(name(token))
}

/// The subgroup that a subgroup name names.
#[tactic(auto, unfolding(crate::specs::Values::which_of))]
pub(crate) fn which(names: &IndexMap<Name, Subgroup>, token: &[u8]) -> Result<Which, SourceFault>
    requires short { All (λ (n : Named). length n.0 ≤ 16) (map named names.now.entries) }
    requires few { length names.now.entries < NAMES_LIMIT }
    ensures { result ≡ which_of (map named names.now.entries) token.now }
{
    if token == b"all".as_slice() {
        return Ok(Which::All);
    }
    if token == b"none".as_slice() {
        return Ok(Which::Trivial);
    }
    match place(names, token) {
        Some(place) => Ok(Which::Named(place as u32)),
        None => Err(SourceFault::UnknownName),
    }
}
