//! A counter of steps that takes no bytes and costs nothing when the program runs: it stands in contracts alone.
//! It stands on the ledgers of std. Crates above pass a `&mut Steps<L>` on, raise it by `tick` or `add` at each step that they mean to count, and say in a clause by how much it rose.
//!
//! A clause sees a counter as its count, so `steps.old` and `steps.new` are numbers.
#![tactic(auto)]

ghost use Rattle.std.specs.Prelude.{◌≡◌, ◌+◌, ◌<◌};

use std::marker::Model;
use std::sync::ledger::{Blank, Book, Ledger, Share};

/// The number of steps that were taken. Only `tick` and `add` change it, and both only raise it.
#[derive(Drop)]
pub struct Steps<L: Ledger> {
    book: Book<L>,
    share: Share<L>,
}

impl<L: Ledger> Model for Steps<L> {
    ghost use Rattle.std.specs.Prelude.{ℕ, ◌<◌};

    ghost Value = { ℕ };

    ghost view = { λ s. s.book.total };

    ghost invariant = { λ s. 0 < s.share.parts };
}

impl<L: Ledger> Steps<L> {
    /// A new counter at 0.
    ///
    /// A call whose signature has no counter makes one for itself in two functions: an inner one, generic in `L: Ledger`, takes a `blank: Blank` with these three conditions and makes its counter here;
    /// the public one calls it at `std::marker::Brand` with `Blank::new(1)`, and its proof names the ledger in one line, `ghosts-inner a = record { name = a.blank.name; parts = a.blank.parts }`.
    pub fn new(blank: Blank) -> Steps<L>
        requires name { blank.name ≡ L.name }
        requires parts { blank.parts ≡ L.parts }
        requires some { 0 < L.parts }
        ensures { result ≡ 0 }
    {
        let (book, share) = blank.open::<L>();
        Steps { book, share }
    }

    /// Counts one step.
    pub fn tick(&mut self)
        ensures { self.new ≡ self.old + 1 }
    {
        self.book.add(&mut self.share, 1);
    }

    /// Counts `steps` steps.
    pub fn add(&mut self, steps: u64)
        ensures { self.new ≡ self.old + steps }
    {
        self.book.add(&mut self.share, steps);
    }
}

#[cfg(test)]
mod tests;
