// The source lines that a later dossier has to have.
ghost use Rattle.std.specs.Prelude.{◌≡◌, length, []};
ghost use Rattle.df_check.specs.Judging.{is_awaited, after_awaited};

use df_dossier::SourceText;
use df_io::Lines;
use std::marker::Model;

/// Source lines that are still to come: those of a source from a place on.
#[derive(Drop)]
pub struct SameSource<'m> {
    text: &'m [u8],
    lines: Lines<'m>,
}

impl<'m> Model for SameSource<'m> {
    ghost use Rattle.std.specs.Prelude.{◌≡◌, ℕ, List, drop};
    ghost use Rattle.df_io.specs.Lines.{lines_of};

    ghost Value = { List (List ℕ) };

    ghost view = { λ s. lines_of (drop s.lines.at s.lines.text) };

    ghost invariant = { λ s. s.lines.text ≡ s.text.now };
}

impl<'m> SameSource<'m> {
    /// All lines of the source.
    pub fn all(source: &'m SourceText) -> SameSource<'m>
        ensures { result ≡ source.now }
    {
        let text = source.text();
        SameSource {
            text,
            lines: Lines::new(text),
        }
    }

    /// No line.
    pub fn none() -> SameSource<'m>
        ensures { result ≡ [] }
    {
        let text: &'m [u8] = &[];
        SameSource {
            text,
            lines: Lines::new(text),
        }
    }

    /// Whether the next line is this one. It counts as passed then, and otherwise.
    pub fn is_next(&mut self, line: &[u8]) -> bool
        ensures answer { result ≡ is_awaited self.old line.now }
        ensures later { self.new ≡ after_awaited self.old }
    {
        match self.lines.next() {
            Some(next) => line == &self.text[next.start..next.end],
            None => false,
        }
    }
}

/// How many lines the source has.
pub fn line_count(source: &SourceText) -> u64
    ensures { result ≡ length source.now }
{
    let mut lines = Lines::new(source.text());
    let mut count = 0;
    while let Some(line) = lines.next() {
        count = line.number;
    }
    count
}
