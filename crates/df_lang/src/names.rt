// Names of subgroups.
ghost use Rattle.std.specs.Prelude.{◌≡◌, ◌≤◌, length, take};
ghost use Rattle.std.specs.List.{list_any, list_all};
ghost use Rattle.df_lang.specs.Names.{is_letter as letter, is_name_byte as name_byte, is_name as meant_name, is_reserved as reserved};

use crate::pieces::Name;
use arrayvec::ArrayVec;

/// Whether a token has the form of a name.
pub(crate) fn is_name(token: &[u8]) -> bool
    ensures { result ≡ meant_name token.now }
{
    token.len() <= 16 && begins_with_letter(token) && has_name_bytes(token)
}

/// Whether a name is that of the whole group or of the subgroup of 0 alone.
pub(crate) fn is_reserved(token: &[u8]) -> bool
    ensures { result ≡ reserved token.now }
{
    token == b"all".as_slice() || token == b"none".as_slice()
}

/// A name of these bytes.
pub(crate) fn name(bytes: &[u8]) -> Name
    requires { length bytes.now ≤ 16 }
    ensures { result.items ≡ bytes.now }
{
    let mut name = ArrayVec::new();
    match name.try_extend_from_slice(bytes) {
        Ok(()) => name,
        Err(_) => unreachable!(),
    }
}

fn begins_with_letter(token: &[u8]) -> bool
    ensures { result ≡ list_any letter (take 1 token.now) }
{
    match token.first() {
        Some(b) => is_letter(*b),
        None => false,
    }
}

fn has_name_bytes(token: &[u8]) -> bool
    ensures { result ≡ list_all name_byte token.now }
{
    token.iter().all(|b| is_name_byte(*b))
}

fn is_letter(byte: u8) -> bool
    ensures { result ≡ letter byte }
{
    (b'A' <= byte && byte <= b'Z') || (b'a' <= byte && byte <= b'z')
}

fn is_name_byte(byte: u8) -> bool
    ensures { result ≡ name_byte byte }
{
    is_letter(byte) || (b'0' <= byte && byte <= b'9') || byte == b'_'
}
