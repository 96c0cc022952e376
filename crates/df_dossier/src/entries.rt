// Entry lines, read.
ghost use Rattle.std.specs.Prelude.{◌≡◌, [], option_map, nat_lt};
ghost use Rattle.std.specs.List.{list_all};
ghost use Rattle.df_io.specs.Lines.{left};
ghost use Rattle.df_dossier.specs.Entries.{entry_of, entry_word as word_of, one_place as one_of};
ghost use Rattle.df_dossier.specs.Entries.{residue_of, weight_of, weight_size as size_of};
ghost use Rattle.df_dossier.specs.Entries.{may_follow as fits, cut_from};
ghost use Rattle.df_dossier.specs.Tokens.{ending};
ghost use Rattle.df_walk.specs.declared.Entry.TheVariants.{Settled};

use crate::numbers::{MOST_NUMBER, number_within, place};
use arrayvec::ArrayVec;
use df_io::Tokens;
use df_walk::{CutRow, Entry, Rules};

/// The most rows of a cut.
pub const MOST_ROWS: usize = 16;

/// The largest weight of a row in a cut, and the largest size of a negative one.
pub const MOST_WEIGHT: u64 = 1000;

// The words with which entry lines begin.
#[derive(Clone, Copy, Debug, PartialEq, Eq)]
pub enum EntryWord {
    Branch,
    Over,
    Under,
    Settled,
    Residue,
    Cut,
}

/// The entry of a line, by the rules of its dossier; `None` exactly where the line isn't an entry
/// line. Residues and cuts stand in dossiers of the divisor's rules alone.
pub fn read_entry(line: &[u8], rules: Rules) -> Option<Entry>
    ensures { result ≡ entry_of rules line.now }
{
    let mut tokens = Tokens::new(line);
    let word = entry_word(tokens.next_token()?)?;
    match (word, rules) {
        (EntryWord::Branch, _) => Some(Entry::Branch(one_place(&mut tokens)?)),
        (EntryWord::Over, _) => Some(Entry::Over(one_place(&mut tokens)?)),
        (EntryWord::Under, _) => Some(Entry::Under(one_place(&mut tokens)?)),
        (EntryWord::Settled, _) => settled(&mut tokens),
        (EntryWord::Residue, Rules::Divisor) => residue(&mut tokens),
        (EntryWord::Cut, Rules::Divisor) => Some(Entry::Cut(cut_rows(&mut tokens)?)),
        (EntryWord::Residue | EntryWord::Cut, Rules::Plain) => None,
    }
}

fn entry_word(token: &[u8]) -> Option<EntryWord>
    ensures { result ≡ word_of token.now }
{
    if token == b"branch".as_slice() {
        Some(EntryWord::Branch)
    } else if token == b"over".as_slice() {
        Some(EntryWord::Over)
    } else if token == b"under".as_slice() {
        Some(EntryWord::Under)
    } else if token == b"settled".as_slice() {
        Some(EntryWord::Settled)
    } else if token == b"residue".as_slice() {
        Some(EntryWord::Residue)
    } else if token == b"cut".as_slice() {
        Some(EntryWord::Cut)
    } else {
        None
    }
}

// One number of a column or a row, and no token more.
fn one_place(tokens: &mut Tokens<'_>) -> Option<u32>
    ensures { result ≡ one_of (left tokens.old) }
{
    let number = place(tokens.next_token()?)?;
    match tokens.next_token() {
        None => Some(number),
        Some(_) => None,
    }
}

fn settled(tokens: &mut Tokens<'_>) -> Option<Entry>
    ensures { result ≡ ending (left tokens.old) Settled }
{
    match tokens.next_token() {
        None => Some(Entry::Settled),
        Some(_) => None,
    }
}

// A row and a divisor, and no token more.
fn residue(tokens: &mut Tokens<'_>) -> Option<Entry>
    ensures { result ≡ residue_of (left tokens.old) }
{
    let row = place(tokens.next_token()?)?;
    let divisor = number_within(2, MOST_NUMBER, tokens.next_token()?)? as u32;
    match tokens.next_token() {
        None => Some(Entry::Residue { row, divisor }),
        Some(_) => None,
    }
}

// A weight.
fn weight(token: &[u8]) -> Option<i16>
    ensures { result ≡ weight_of token.now }
{
    if token.is_empty() {
        return None;
    }
    if token[0] == b'-' {
        let size = number_within(1, MOST_WEIGHT, &token[1..])?;
        Some(-(size as i16))
    } else {
        let size = number_within(1, MOST_WEIGHT, token)?;
        Some(size as i16)
    }
}

// One row more may follow these.
fn may_follow(rows: &[CutRow], row: u32) -> bool
    ensures { result ≡ fits rows.now row }
{
    rows.len() < MOST_ROWS && are_before(rows, row)
}

fn are_before(rows: &[CutRow], row: u32) -> bool
    ensures { result ≡ list_all (λ w. nat_lt w.row row) rows.now }
{
    rows.iter().all(|before| before.row < row)
}

// Weighted rows, from one to the most.
#[tactic(auto, unfolding(crate::specs::Entries::cut_from))]
fn cut_rows(tokens: &mut Tokens<'_>) -> Option<ArrayVec<CutRow, 16>>
    ensures { option_map (λ ws. ws.items) result ≡ cut_from [] (left tokens.old) }
{
    let mut rows = ArrayVec::new();
    while let Some(token) = tokens.next_token() {
        let weight = weight(token)?;
        let row = place(tokens.next_token()?)?;
        if !may_follow(&rows, row) {
            return None;
        }
        rows.push(CutRow { weight, row });
    }
    if rows.is_empty() { None } else { Some(rows) }
}
