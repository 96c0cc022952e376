// The tokens of a line, one by one, each by its rule.
ghost use Rattle.std.specs.Prelude.{◌≡◌, ◌≤◌, ◌∷◌, [], MatchResult, IfOk};
ghost use Rattle.df_io.specs.Lines.{left};
ghost use Rattle.df_lang.specs.Rules.{end as ended, number_of, number_in as meant_in, one_number as meant_one};

use crate::fault::SourceFault;
use df_io::{NumberRead, Tokens, read_number};

/// A token that is needed.
pub(crate) fn needed<'a>(tokens: &mut Tokens<'a>) -> Result<&'a [u8], SourceFault>
    ensures { MatchResult result (λ token. left tokens.old ≡ token.now ∷ left tokens.new) (λ fault. (left tokens.old ≡ []) × (fault ≡ SourceFault.BadWord)) }
{
    match tokens.next_token() {
        Some(token) => Ok(token),
        None => Err(SourceFault::BadWord),
    }
}

/// No token more.
pub(crate) fn end(tokens: &mut Tokens<'_>) -> Result<(), SourceFault>
    ensures { result ≡ ended (left tokens.old) tt }
{
    match tokens.next_token() {
        Some(_) => Err(SourceFault::BadWord),
        None => Ok(()),
    }
}

/// A number.
pub(crate) fn number(token: &[u8]) -> Result<u64, SourceFault>
    ensures { result ≡ number_of token.now }
{
    match read_number(token) {
        NumberRead::Value(value) => Ok(value),
        NumberRead::NotDigits | NumberRead::TooLarge => Err(SourceFault::BadNumber),
    }
}

/// A number from `low` to `high`.
pub(crate) fn number_in(
    low: u64,
    high: u64,
    fault: SourceFault,
    token: &[u8],
) -> Result<u64, SourceFault>
    ensures value { result ≡ meant_in low high fault token.now }
    ensures range { IfOk result (λ n. (low ≤ n) × (n ≤ high)) }
{
    let value = number(token)?;
    if low <= value && value <= high {
        Ok(value)
    } else {
        Err(fault)
    }
}

/// One number from `low` to `high`, and no token more.
#[tactic(auto, unfolding(crate::specs::Rules::one_number))]
pub(crate) fn one_number(
    low: u64,
    high: u64,
    fault: SourceFault,
    tokens: &mut Tokens<'_>,
) -> Result<u64, SourceFault>
    ensures value { result ≡ meant_one low high fault (left tokens.old) }
    ensures range { IfOk result (λ n. (low ≤ n) × (n ≤ high)) }
{
    let token = needed(tokens)?;
    let value = number_in(low, high, fault, token)?;
    end(tokens)?;
    Ok(value)
}
