// Entry lines of the forms that most lines of a log have, read at a glance: one word, or a word, a space and a number. A line of
// another form is read token by token.
ghost use Rattle.std.specs.Prelude.{◌≡◌, IfSome};
ghost use Rattle.df_dossier.specs.QuickEntries.{entry_meant, IsQuick};

use crate::numbers::place;
use df_walk::Entry;

// An entry with one number, or with none.
#[derive(Clone, Copy)]
pub enum QuickEntry {
    Branch(u32),
    Over(u32),
    Under(u32),
    Settled,
}

impl QuickEntry {
    // The entry.
    pub fn entry(self) -> Entry
        ensures { result ≡ entry_meant self }
    {
        match self {
            QuickEntry::Branch(column) => Entry::Branch(column),
            QuickEntry::Over(row) => Entry::Over(row),
            QuickEntry::Under(row) => Entry::Under(row),
            QuickEntry::Settled => Entry::Settled,
        }
    }
}

// The entry of a line of these forms. `None` says nothing.
pub(crate) fn quick_entry(line: &[u8]) -> Option<QuickEntry>
    ensures { IfSome result (λ quick. IsQuick line.now quick) }
{
    if let Some(column) = line.strip_prefix(b"branch ".as_slice()) {
        return Some(QuickEntry::Branch(place(column)?));
    }
    if let Some(row) = line.strip_prefix(b"over ".as_slice()) {
        return Some(QuickEntry::Over(place(row)?));
    }
    if let Some(row) = line.strip_prefix(b"under ".as_slice()) {
        return Some(QuickEntry::Under(place(row)?));
    }
    if line == b"settled".as_slice() {
        return Some(QuickEntry::Settled);
    }
    None
}
