// A search that leaps goes past the columns that can't be taken. Most of them have a positive entry in a row that needs nothing any more:
// such a row bars each of its columns. They are kept as sets of 64 columns to a word: one set for each row, made once from the entries,
// and one for each level, that of the level below joined with the sets of the rows that it bars itself.
// A new level costs one word for each 64 columns, a row as much, and the last level goes at the cost of its rows;
// a run of barred columns is read from a single word. No call counts a step.

ghost use Rattle.std.specs.Prelude.{◌≡◌, ℕ, ◌+◌, ◌-◌, ◌*◌, ◌/◌, ◌%◌, ◌<◌, ◌≤◌, [], ◌∷◌, length, drop, reverse, take, slice_index, IfOk, vec_len, true, false};
ghost use Rattle.std.specs.Int.{bit_at};
ghost use Rattle.std.specs.Int.RustNames.{bit_or};
ghost use Rattle.df_walk.specs.Systems.{AreCells, cells, entry};
ghost use Rattle.df_system.specs.BarredColumns.{IsBarredBy, bars_row, with_row, word_count, kept_levels};
ghost use Rattle.df_system.specs.BarredWords.{AreRowSets, HasBit, HasColumn, SetsArePositive, levels_of};

use crate::OutOfMemory;
use crate::system::System;
use df_walk::Cell;
use std::alloc::Global;
use std::marker::Model;

/// How many columns a word has.
pub const COLUMNS_A_WORD: u32 = 64;

/// The most words that the sets of all rows may take: where they would take more, none are kept.
pub const SET_WORDS: usize = 4_194_304;

/// The most words that the sets of all levels may take: those of higher levels aren't kept.
pub const LEVEL_WORDS: usize = 1_048_576;

/// Columns in which a barred row has a positive entry, by levels: each bars what those below it bar, and the last one goes first.
/// There is one level at least.
///
/// Contracts see the system, and the rows that each level bars beyond those below it, the last level and the last row first.
#[derive(Drop)]
pub struct BarredColumns<'m> {
    system: &'m System,
    // how many words a set has, and how many levels have theirs
    words: usize,
    kept: usize,
    // the set of each row, where a level is kept
    sets: Vec<u64>,
    // the set of each kept level
    barred: Vec<u64>,
    // the barred rows in the first `count` places, in their order, and `None` where a level begins
    trail: Vec<Option<u32>>,
    count: usize,
    // the number of the last level
    top: usize,
}

impl<'m> Model for BarredColumns<'m> {
    ghost use Rattle.std.specs.Prelude.{reverse, take};
    ghost use Rattle.df_system.specs.BarredColumns.{Barring};
    ghost use Rattle.df_system.specs.BarredWords.{AreStoredBarred, levels_of};

    ghost Value = { Barring };

    ghost view = { λ b. record { system = b.system.now; levels = levels_of (reverse (take b.count b.trail.items)) } };

    ghost invariant = { λ b. AreStoredBarred b.system.now b.words b.kept b.sets.items b.barred.items b.trail.items b.count b.top };
}

/// Puts a column into the sets of the rows in which it has a positive entry.
fn set_column(sets: &mut Vec<u64>, system: &System, words: usize, column: u32)
    requires column { column < length system.now.columns }
    requires wide { length system.now.columns ≤ words * COLUMNS_A_WORD }
    requires long { length sets.old.items ≡ length system.now.targets * words }
    requires positive { SetsArePositive system.now words sets.old.items }
    ensures long { length sets.new.items ≡ length sets.old.items }
    ensures positive { SetsArePositive system.now words sets.new.items }
    ensures kept { (place bit : ℕ) → bit < COLUMNS_A_WORD → HasBit sets.old.items place bit → HasBit sets.new.items place bit }
    ensures set { (row : ℕ) → 0 < entry system.now row column → HasColumn sets.new.items (row * words) column }
{
    let word = (column / COLUMNS_A_WORD) as usize;
    let bit = column % COLUMNS_A_WORD;
    for cell in system.column(column) {
        let place = cell.row as usize * words + word;
        sets[place] = sets[place] | (1 << bit);
    }
}

/// The sets of all rows.
fn row_sets(alloc: Global, system: &System, words: usize) -> Result<Vec<u64>, OutOfMemory>
    requires words { words ≡ word_count system.now }
    requires few { length system.now.targets * words ≤ SET_WORDS }
    ensures { IfOk result (λ sets. AreRowSets system.now words sets.items) }
{
    let mut sets = vec![in alloc; 0; system.rows() as usize * words]?;
    for column in 0..system.columns() {
        set_column(&mut sets, system, words, column);
    }
    Ok(sets)
}

/// Joins the set of a level with that of a row, where the level is kept.
fn join(barred: &mut Vec<u64>, sets: &[u64], words: usize, kept: usize, level: usize, row: usize)
    requires long { vec_len barred.old ≡ kept * words }
    requires row { 0 < kept → row * words + words ≤ length sets.now }
    ensures long { length barred.new.items ≡ length barred.old.items }
    ensures below { (place : ℕ) → place < level * words → slice_index barred.new.items place ≡ slice_index barred.old.items place }
    ensures joined { level < kept → (k : ℕ) → k < words → slice_index barred.new.items (level * words + k) ≡ bit_or (slice_index barred.old.items (level * words + k)) (slice_index sets.now (row * words + k)) }
{
    if level < kept {
        for k in 0..words {
            let place = level * words + k;
            barred[place] = barred[place] | sets[row * words + k];
        }
    }
}

/// Copies the set of the level below to a level, where that is kept.
fn copy(barred: &mut Vec<u64>, words: usize, kept: usize, level: usize)
    requires long { vec_len barred.old ≡ kept * words }
    requires some { 0 < level }
    ensures long { length barred.new.items ≡ length barred.old.items }
    ensures below { (place : ℕ) → place < level * words → slice_index barred.new.items place ≡ slice_index barred.old.items place }
    ensures copied { level < kept → (k : ℕ) → k < words → slice_index barred.new.items (level * words + k) ≡ slice_index barred.old.items ((level - 1) * words + k) }
{
    if level < kept {
        for k in 0..words {
            barred[level * words + k] = barred[(level - 1) * words + k];
        }
    }
}

/// The place in a trail at which its last level begins.
fn level_start(trail: &[Option<u32>], count: usize) -> usize
    requires within { count ≤ length trail.now }
    requires some { 1 < length (levels_of (reverse (take count trail.now))) }
    ensures within { result < count }
    ensures levels { levels_of (reverse (take result trail.now)) ≡ drop 1 (levels_of (reverse (take count trail.now))) }
{
    let mut place = count - 1;
    while trail[place].is_some() {
        place -= 1;
    }
    place
}

/// How many ones a word has from a bit on.
fn ones_from(word: u64, bit: u32) -> u32
    requires { bit < COLUMNS_A_WORD }
    ensures within { bit + result ≤ COLUMNS_A_WORD }
    ensures ones { (k : ℕ) → k < result → bit_at word (bit + k) ≡ 1 }
    ensures end { bit + result < COLUMNS_A_WORD → bit_at word (bit + result) ≡ 0 }
{
    let rest = word >> bit;
    if rest == u64::MAX {
        COLUMNS_A_WORD
    } else {
        rest.trailing_ones()
    }
}

impl<'m> BarredColumns<'m> {
    /// One level, which bars nothing. It takes the room for a level more for each column.
    pub fn new(alloc: Global, system: &'m System) -> Result<BarredColumns<'m>, OutOfMemory>
        ensures { IfOk result (λ b. b ≡ record { system = system.now; levels = [] ∷ [] }) }
    {
        let rows = system.rows() as usize;
        let columns = system.columns() as usize;
        let words = (system.columns() / COLUMNS_A_WORD) as usize + 1;
        let (kept, sets) = if rows * words <= SET_WORDS {
            let sets = row_sets(alloc, system, words)?;
            ((LEVEL_WORDS / words).min(columns + 1), sets)
        } else {
            (0, Vec::new(alloc))
        };
        let barred = vec![in alloc; 0; kept * words]?;
        let trail = vec![in alloc; None; rows + columns]?;
        Ok(BarredColumns {
            system,
            words,
            kept,
            sets,
            barred,
            trail,
            count: 0,
            top: 0,
        })
    }

    /// The last level bars a row too, which no level bars yet.
    pub fn bar(&mut self, row: u32)
        requires row { row < length self.old.system.targets }
        requires fresh { bars_row self.old.levels row ≡ false }
        ensures { self.new ≡ record self.old { levels = with_row row self.old.levels } }
    {
        join(
            &mut self.barred,
            &self.sets,
            self.words,
            self.kept,
            self.top,
            row as usize,
        );
        self.trail[self.count] = Some(row);
        self.count += 1;
    }

    /// A new level, which bars what those below it bar. There may be one for each column, beside the lowest.
    pub fn push(&mut self)
        requires { length self.old.levels ≤ length self.old.system.columns }
        ensures { self.new ≡ record self.old { levels = [] ∷ self.old.levels } }
    {
        self.top += 1;
        copy(&mut self.barred, self.words, self.kept, self.top);
        self.trail[self.count] = None;
        self.count += 1;
    }

    /// The last level goes, with the rows that it alone bars. It isn't the only one.
    pub fn pop(&mut self)
        requires { 1 < length self.old.levels }
        ensures { self.new ≡ record self.old { levels = drop 1 self.old.levels } }
    {
        self.top -= 1;
        self.count = level_start(&self.trail, self.count);
    }

    /// How many columns from this one on are barred, of those that share its word.
    /// Where no more levels are than are kept, it is their number; else it is 0, which says nothing.
    pub fn run(&self, column: u32) -> u32
        requires { column < length self.now.system.columns }
        ensures barred { (k : ℕ) → k < result → IsBarredBy self.now.system self.now.levels (column + k) }
        ensures inside { column + result ≤ length self.now.system.columns }
        ensures word { column % COLUMNS_A_WORD + result ≤ COLUMNS_A_WORD }
        ensures end { length self.now.levels ≤ kept_levels self.now.system → column % COLUMNS_A_WORD + result < COLUMNS_A_WORD → IsBarredBy self.now.system self.now.levels (column + result) → ⊥ }
        ensures beyond { kept_levels self.now.system < length self.now.levels → result ≡ 0 }
    {
        if self.kept <= self.top {
            return 0;
        }
        let word = (column / COLUMNS_A_WORD) as usize;
        ones_from(
            self.barred[self.top * self.words + word],
            column % COLUMNS_A_WORD,
        )
    }
}

#[cfg(test)]
mod tests;
