// Marks at places below a bound, one bit each.
ghost use Rattle.std.specs.Prelude.{◌≡◌, ◌==◌, ◌||◌, ◌*◌, ◌<◌, ◌≤◌, ℕ, false, length, IfOk};
ghost use Rattle.df_orbits.specs.MarkedPlaces.{is_marked};

use crate::OutOfMemory;
use crate::orbits::MOST_SUMMED;
use std::alloc::Global;
use std::marker::Model;

#[derive(Drop)]
pub struct Marks {
    words: Vec<u64>,
}

impl Model for Marks {
    ghost use Rattle.std.specs.Prelude.{List, ℕ};

    ghost Value = { List ℕ };

    ghost view = { λ m. m.words.items };
}

impl Marks {
    /// No mark at any of the places below `count`, which is at most `MOST_SUMMED`.
    pub fn none(alloc: Global, count: usize) -> Result<Marks, OutOfMemory>
        requires { count ≤ MOST_SUMMED }
        ensures room { IfOk result (λ marks. count ≤ 64 * length marks) }
        ensures none { IfOk result (λ marks. (place : ℕ) → is_marked marks place ≡ false) }
    {
        Ok(Marks {
            words: vec![in alloc; 0; count / 64 + 1]?,
        })
    }

    /// Whether there is a mark at this place.
    pub fn has(&self, place: usize) -> bool
        requires { place < 64 * length self.now }
        ensures { result ≡ is_marked self.now place }
    {
        (self.words[place / 64] >> (place % 64)) & 1 == 1
    }

    /// Sets a mark at this place.
    pub fn put(&mut self, place: usize)
        requires { place < 64 * length self.old }
        ensures room { length self.new ≡ length self.old }
        ensures marks { (other : ℕ) → is_marked self.new other ≡ (is_marked self.old other || place == other) }
    {
        self.words[place / 64] |= 1 << (place % 64);
    }
}
