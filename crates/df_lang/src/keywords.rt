// The keywords with which statements begin.
ghost use Rattle.std.specs.Prelude.{◌≡◌};
ghost use Rattle.df_lang.specs.Statements.{keyword_of};

use crate::pieces::Keyword;

/// The statement that begins with this token.
pub(crate) fn keyword(token: &[u8]) -> Option<Keyword>
    ensures { result ≡ keyword_of token.now }
{
    if token == b"group".as_slice() {
        Some(Keyword::Group)
    } else if token == b"fixed".as_slice() {
        Some(Keyword::Fixed)
    } else if token == b"subgroup".as_slice() {
        Some(Keyword::Subgroup)
    } else if token == b"shift".as_slice() {
        Some(Keyword::Shift)
    } else if token == b"mult".as_slice() {
        Some(Keyword::Mult)
    } else if token == b"k".as_slice() {
        Some(Keyword::Size)
    } else if token == b"lambda".as_slice() {
        Some(Keyword::Lambda)
    } else if token == b"inside".as_slice() {
        Some(Keyword::Inside)
    } else if token == b"hole".as_slice() {
        Some(Keyword::Hole)
    } else if token == b"base".as_slice() {
        Some(Keyword::Base)
    } else if token == b"short".as_slice() {
        Some(Keyword::Short)
    } else if token == b"require".as_slice() {
        Some(Keyword::Require)
    } else if token == b"forbid".as_slice() {
        Some(Keyword::Forbid)
    } else {
        None
    }
}
