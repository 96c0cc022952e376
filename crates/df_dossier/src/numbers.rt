// Numbers as tokens of a dossier's lines.
ghost use Rattle.std.specs.Prelude.{◌≡◌, ◌≤◌, IfSome};
ghost use Rattle.df_dossier.specs.Tokens.{number_within as within, place_of};

use df_io::{NumberRead, read_number};

/// The largest number of a column or a row, and the largest divisor and length of a path:
/// 4,294,967,295.
pub const MOST_NUMBER: u64 = 4_294_967_295;

/// The largest count of designs or nodes: 18,446,744,073,709,551,615.
pub const MOST_COUNT: u64 = 18_446_744_073_709_551_615;

// The number that a token spells, from `least` to `most`.
pub(crate) fn number_within(least: u64, most: u64, token: &[u8]) -> Option<u64>
    ensures value { result ≡ within least most token.now }
    ensures range { IfSome result (λ n. (least ≤ n) × (n ≤ most)) }
{
    match read_number(token) {
        NumberRead::Value(value) if least <= value && value <= most => Some(value),
        _ => None,
    }
}

// The number of a column or a row.
pub(crate) fn place(token: &[u8]) -> Option<u32>
    ensures { result ≡ place_of token.now }
{
    let value = number_within(0, MOST_NUMBER, token)?;
    Some(value as u32)
}
