// The pieces of dossiers that are held as a slice.
ghost use Rattle.std.specs.Prelude.{◌≡◌, []};
ghost use Rattle.df_dossier.specs.Pieces.{pieces, first_piece, piece_read};

use crate::judge::{Awaits, LineJudge, Piece};
use df_io::Lines;
use std::marker::Model;

/// The pieces of an input of dossiers, one after the other.
///
/// Clauses see the number and the bytes of the last piece's line, and the pieces to come.
#[derive(Drop)]
pub struct LineReader<'a> {
    input: &'a [u8],
    lines: Lines<'a>,
    judge: LineJudge,
    number: u64,
    text: &'a [u8],
}

impl<'a> Model for LineReader<'a> {
    ghost use Rattle.std.specs.Prelude.{◌≡◌, ◌+◌, drop};
    ghost use Rattle.df_io.specs.Lines.{lines_of};
    ghost use Rattle.df_dossier.specs.Pieces.{PieceScan, rest_of};

    ghost Value = { PieceScan };

    ghost view = { λ r. record {
      number = r.number;
      text = r.text.now;
      rest = rest_of r.judge.awaits r.number r.text.now (r.lines.number + 1) (lines_of (drop r.lines.at r.input.now));
    } };

    ghost invariant = { λ r. r.lines.text ≡ r.input.now };
}

impl<'a> LineReader<'a> {
    /// No piece was read.
    pub fn new(input: &'a [u8]) -> LineReader<'a>
        ensures { result ≡ record { number = 0; text = []; rest = pieces input.now } }
    {
        LineReader {
            input,
            lines: Lines::new(input),
            judge: LineJudge::new(),
            number: 0,
            text: &[],
        }
    }

    /// The next piece. A `Bad` comes exactly at the first line that breaks a rule, or at the end where no dossier may
    /// end there, and again at each call after it; `Done` exactly at the end of the input after a whole dossier.
    ///
    /// What follows `from`, `design` and `next`, and what the source lines state, isn't looked at. A line with tokens
    /// after an end line is the head of the next dossier.
    pub fn next(&mut self) -> Piece
        ensures piece { result ≡ (first_piece self.old.rest).piece }
        ensures read { self.new ≡ piece_read self.old }
    {
        if let Awaits::Nothing(fault) = self.judge.awaits {
            return Piece::Bad(fault);
        }
        while let Some(line) = self.lines.next() {
            let text = &self.input[line.start..line.end];
            if let Some(piece) = self.judge.line(text) {
                self.number = line.number;
                self.text = text;
                return piece;
            }
        }
        self.number = 0;
        self.text = &[];
        self.judge.end()
    }

    /// The number of the last piece's line, from 1; 0 before the first piece, and where the last was that of the end.
    pub fn line(&self) -> u64
        ensures { result ≡ self.now.number }
    {
        self.number
    }

    /// The bytes of the last piece's line; none where `line` is 0.
    pub fn text(&self) -> &[u8]
        ensures { result.now ≡ self.now.text }
    {
        self.text
    }
}
