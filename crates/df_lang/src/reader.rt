// What the lines of a source state, one after the other.
//
// A source is read once, from its first byte to its last: a line is found, its tokens are taken one by one, and the draft of the problem takes
// what they state, by the rules of the statement that its first token names. Each rule is looked at in the order of the definition, so the first
// that is broken is reported, with the number of the line. The draft has the definition's own shape, each piece stated or not, so the lines above
// that of the group go the same way as those below it. Nothing of the source is copied but names; a line costs time in its length, and the
// tables of names and generators what df_group and indexmap take for them.
ghost use Rattle.std.specs.Prelude.{◌≡◌, ◌==◌, IfOk};
ghost use Rattle.df_io.specs.Lines.{left, tokens_of};
ghost use Rattle.df_lang.specs.declared.fault.SourceFault.TheVariants.{BadWord};
ghost use Rattle.df_lang.specs.Drafts.{above, Goes, GoesOn, Reads};
ghost use Rattle.df_lang.specs.DraftRules.{StandsKept};
ghost use Rattle.df_lang.specs.Rules.{allowed};
ghost use Rattle.df_lang.specs.StandsAbove.{nothing, version_of};
ghost use Rattle.df_lang.specs.Statements.{meaning, statement_line, first_line, version_line, step};

use crate::draft::Draft;
use crate::fault::{ParseError, SourceError, SourceFault, Stop};
use crate::keywords::keyword;
use crate::pieces::{Keyword, Kind};
use crate::tokens::one_number;
use df_io::{Lines, Tokens};
use indexmap::IndexMap;
use std::alloc::Global;

impl Draft {
    /// Above the first line.
    pub(crate) fn new(alloc: Global) -> Draft
        ensures { above result ≡ nothing }
    {
        Draft {
            version: None,
            group: None,
            fixed: None,
            names: IndexMap::new(alloc),
            shift: None,
            mults: None,
            sizes: None,
            lambda: None,
            inside: None,
            hole: None,
            family: Vec::new(alloc),
            required: Vec::new(alloc),
            forbidden: Vec::new(alloc),
        }
    }

    /// Takes one more line.
    #[tactic(auto, unfolding(crate::specs::Statements::step))]
    pub(crate) fn line(&mut self, alloc: Global, line: &[u8]) -> Result<(), Stop>
        ensures { GoesOn (step (above self.old) (tokens_of line.now)) (above self.new) result }
    {
        let mut tokens = Tokens::new(line);
        let Some(first) = tokens.next_token() else {
            return Ok(());
        };
        if self.version.is_none() {
            self.first_line(alloc, first, &mut tokens)
        } else {
            self.statement_line(alloc, first, &mut tokens)
        }
    }

    // Takes the first line with tokens, by its first token and those after it.
    #[tactic(auto, unfolding(crate::specs::Statements::first_line))]
    fn first_line(
        &mut self,
        alloc: Global,
        first: &[u8],
        tokens: &mut Tokens<'_>,
    ) -> Result<(), Stop>
        ensures { GoesOn (first_line (above self.old) first.now (left tokens.old)) (above self.new) result }
    {
        if first == b"version".as_slice() {
            return Ok(self.version(tokens)?);
        }
        self.version = Some(1);
        self.statement_line(alloc, first, tokens)
    }

    #[tactic(auto, unfolding(crate::specs::Statements::version_line))]
    fn version(&mut self, tokens: &mut Tokens<'_>) -> Result<(), SourceFault>
        ensures { Goes (version_line (above self.old) (left tokens.old)) (above self.new) result }
    {
        let version = one_number(2, 2, SourceFault::BadNumber, tokens)?;
        self.version = Some(version as u8);
        Ok(())
    }

    // Takes a line of a source whose version is known, by its first token and those after it.
    #[tactic(auto, unfolding(crate::specs::Statements::statement_line))]
    fn statement_line(
        &mut self,
        alloc: Global,
        first: &[u8],
        tokens: &mut Tokens<'_>,
    ) -> Result<(), Stop>
        ensures { GoesOn (statement_line (above self.old) first.now (left tokens.old)) (above self.new) result }
    {
        match keyword(first) {
            Some(keyword) => self.statement(alloc, keyword, tokens),
            None => Err(Stop::Fault(SourceFault::BadWord)),
        }
    }

    #[tactic(auto, unfolding(crate::specs::Statements::meaning))]
    fn statement(
        &mut self,
        alloc: Global,
        keyword: Keyword,
        tokens: &mut Tokens<'_>,
    ) -> Result<(), Stop>
        ensures { GoesOn (meaning (above self.old) keyword (left tokens.old)) (above self.new) result }
    {
        match keyword {
            Keyword::Group => Ok(self.group(tokens)?),
            Keyword::Fixed => Ok(self.fixed(tokens)?),
            Keyword::Subgroup => self.subgroup(alloc, tokens),
            Keyword::Shift => Ok(self.shift(tokens)?),
            Keyword::Mult => Ok(self.mult(tokens)?),
            Keyword::Size => Ok(self.size(tokens)?),
            Keyword::Lambda => Ok(self.lambda(tokens)?),
            Keyword::Inside => Ok(self.inside(tokens)?),
            Keyword::Hole => Ok(self.hole(tokens)?),
            Keyword::Base => self.member(Kind::Base, tokens),
            Keyword::Short => self.member(Kind::Short, tokens),
            Keyword::Require => {
                self.second_version()?;
                self.require(tokens)
            }
            Keyword::Forbid => {
                self.second_version()?;
                self.forbid(tokens)
            }
        }
    }

    // Whether the source is of version 2.
    fn second_version(&self) -> Result<(), SourceFault>
        ensures { result ≡ allowed (version_of (above self.now) == 2) BadWord }
    {
        if self.version.unwrap_or(1) == 2 {
            Ok(())
        } else {
            Err(SourceFault::BadWord)
        }
    }
}

/// What stands above the end of a source.
pub(crate) fn read_lines(alloc: Global, source: &[u8]) -> Result<Draft, ParseError>
    ensures reads { Reads source.now result }
    ensures rules { IfOk result (λ draft. StandsKept (above draft)) }
{
    let mut draft = Draft::new(alloc);
    let mut lines = Lines::new(source);
    while let Some(line) = lines.next() {
        match draft.line(alloc, &source[line.start..line.end]) {
            Ok(()) => {}
            Err(Stop::Fault(fault)) => {
                return Err(ParseError::Refused(SourceError {
                    line: line.number,
                    fault,
                }));
            }
            Err(Stop::OutOfMemory) => return Err(ParseError::OutOfMemory),
        }
    }
    Ok(draft)
}
