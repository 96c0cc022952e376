// A dossier that ended spent, read line by line: what was read of it so far, and what the next line makes of that.
ghost use Rattle.std.specs.Prelude.{◌≡◌, ℕ, ◌+◌, ◌∷◌, [], IfOk};
ghost use Rattle.df_io.specs.Joined.{Lacks, is_line_feed};
ghost use Rattle.df_dossier.specs.Spent.{GivesSpent, GoesOn, StandsAt, IsCounted, IsEndLine, rest_from};
ghost use Rattle.df_dossier.specs.declared.stages.Stage.TheVariants as stage;
ghost use Rattle.df_dossier.specs.declared.spent.SpentError.TheVariants.{Refused};

use crate::designs::{DesignRead, read_design};
use crate::entries::read_entry;
use crate::judge::{DossierFault, Piece, end, head_rules, source_count};
use crate::paths::{PathRead, read_path};
use crate::source_text::SourceText;
use crate::spent::{Spent, SpentError};
use df_io::Tokens;
use df_lang::{ParseError, Problem};
use df_walk::Rules;
use std::alloc::Global;

// The source lines so far: `at` is the number of the line with their count, and `left` how many are to come.
#[derive(Drop)]
pub struct SourceLines {
    pub rules: Rules,
    pub at: u64,
    pub left: u64,
    pub text: SourceText,
}

// What was read.
#[derive(Drop)]
pub enum Stage {
    // Nothing with tokens.
    Head,
    // The head.
    Count(Rules),
    // The number of source lines, and some of them.
    Source(SourceLines),
    // The source.
    From(Rules, Problem),
    // The `from` line, and perhaps some of the log.
    Log(Rules, Problem),
    // The end line.
    Ended(Spent),
}

impl Stage {
    /// Takes the line of this number.
    pub fn line(self, alloc: Global, number: u64, line: &[u8]) -> Result<Stage, SpentError>
        requires plain { Lacks is_line_feed line.now }
        requires place { StandsAt self number }
        ensures goes { GoesOn self number line.now result }
        ensures place { IfOk result (λ next. StandsAt next (number + 1)) }
    {
        match self {
            Stage::Head => head_line(number, line),
            Stage::Count(rules) => count_line(alloc, rules, number, line),
            Stage::Source(source) => source_line(alloc, source, number, line),
            Stage::From(rules, problem) => from_line(alloc, rules, problem, number, line),
            Stage::Log(rules, problem) => log_line(alloc, rules, problem, number, line),
            Stage::Ended(spent) => later_line(spent, number, line),
        }
    }

    /// The input ends.
    pub fn end(self) -> Result<Spent, SpentError>
        ensures { (number : ℕ) → StandsAt self number → GivesSpent (rest_from self number []) result }
    {
        match self {
            Stage::Head | Stage::Count(_) | Stage::Source(_) | Stage::From(..) => {
                Err(refused(0, DossierFault::BadHead))
            }
            Stage::Log(..) => Err(refused(0, DossierFault::BadEnd)),
            Stage::Ended(spent) => Ok(spent),
        }
    }
}

fn refused(line: u64, fault: DossierFault) -> SpentError
    ensures { result ≡ Refused line fault }
{
    SpentError::Refused { line, fault }
}

// The head line.
fn head_line(number: u64, line: &[u8]) -> Result<Stage, SpentError>
    ensures goes { GoesOn stage.Head number line.now result }
    ensures place { IfOk result (λ next. StandsAt next (number + 1)) }
{
    let mut tokens = Tokens::new(line);
    let Some(word) = tokens.next_token() else {
        return Ok(Stage::Head);
    };
    match head_rules(word, &mut tokens) {
        Some(rules) => Ok(Stage::Count(rules)),
        None => Err(refused(number, DossierFault::BadHead)),
    }
}

// The line with the number of source lines.
fn count_line(alloc: Global, rules: Rules, number: u64, line: &[u8]) -> Result<Stage, SpentError>
    ensures goes { GoesOn (stage.Count rules) number line.now result }
    ensures place { IfOk result (λ next. StandsAt next (number + 1)) }
{
    let mut tokens = Tokens::new(line);
    let Some(word) = tokens.next_token() else {
        return Ok(Stage::Count(rules));
    };
    match source_count(word, &mut tokens) {
        Some(left) => Ok(Stage::Source(SourceLines {
            rules,
            at: number,
            left,
            text: SourceText::new(alloc),
        })),
        None => Err(refused(number, DossierFault::BadHead)),
    }
}

// One of the source lines; after the last of them they are read.
fn source_line(
    alloc: Global,
    source: SourceLines,
    number: u64,
    line: &[u8],
) -> Result<Stage, SpentError>
    requires plain { Lacks is_line_feed line.now }
    requires place { IsCounted source.at source.left source.text number }
    ensures goes { GoesOn (stage.Source source) number line.now result }
    ensures place { IfOk result (λ next. StandsAt next (number + 1)) }
{
    let SourceLines {
        rules,
        at,
        left,
        text,
    } = source;
    let text = text.with_line(line)?;
    if left > 1 {
        return Ok(Stage::Source(SourceLines {
            rules,
            at,
            left: left - 1,
            text,
        }));
    }
    match text.parse(alloc) {
        Ok(problem) => Ok(Stage::From(rules, problem)),
        Err(ParseError::Refused(error)) => Err(refused(
            at + error.line,
            DossierFault::BadSource(error.fault),
        )),
        Err(ParseError::OutOfMemory) => Err(SpentError::OutOfMemory),
    }
}

// The `from` line.
fn from_line(
    alloc: Global,
    rules: Rules,
    problem: Problem,
    number: u64,
    line: &[u8],
) -> Result<Stage, SpentError>
    ensures goes { GoesOn (stage.From rules problem) number line.now result }
    ensures place { IfOk result (λ next. StandsAt next (number + 1)) }
{
    let Some(word) = Tokens::new(line).next_token() else {
        return Ok(Stage::From(rules, problem));
    };
    if word != b"from".as_slice() {
        return Err(refused(number, DossierFault::BadHead));
    }
    match read_path(alloc, line) {
        Ok(_) => Ok(Stage::Log(rules, problem)),
        Err(PathRead::Bad) => Err(refused(number, DossierFault::BadHead)),
        Err(PathRead::OutOfMemory) => Err(SpentError::OutOfMemory),
    }
}

// A line of the log, or the end line.
fn log_line(
    alloc: Global,
    rules: Rules,
    problem: Problem,
    number: u64,
    line: &[u8],
) -> Result<Stage, SpentError>
    ensures goes { GoesOn (stage.Log rules problem) number line.now result }
    ensures place { IfOk result (λ next. StandsAt next (number + 1)) }
{
    let mut tokens = Tokens::new(line);
    let Some(word) = tokens.next_token() else {
        return Ok(Stage::Log(rules, problem));
    };
    if word == b"end".as_slice() {
        let Some(piece) = end(&mut tokens) else {
            return Err(refused(number, DossierFault::BadEnd));
        };
        return end_line(alloc, rules, problem, piece, number, line);
    }
    if word == b"design".as_slice() {
        match read_design(alloc, &problem, line) {
            Ok(_) => {}
            Err(DesignRead::Bad) => return Err(refused(number, DossierFault::BadDesign)),
            Err(DesignRead::OutOfMemory) => return Err(SpentError::OutOfMemory),
        }
        return Ok(Stage::Log(rules, problem));
    }
    match read_entry(line, rules) {
        Some(_) => Ok(Stage::Log(rules, problem)),
        None => Err(refused(number, DossierFault::BadEntry)),
    }
}

// The end line, by what it says before its path.
fn end_line(
    alloc: Global,
    rules: Rules,
    problem: Problem,
    piece: Piece,
    number: u64,
    line: &[u8],
) -> Result<Stage, SpentError>
    requires { IsEndLine line.now piece }
    ensures goes { GoesOn (stage.Log rules problem) number line.now result }
    ensures place { IfOk result (λ next. StandsAt next (number + 1)) }
{
    let finished = match piece {
        Piece::End { finished, .. } => finished,
        _ => return Err(refused(number, DossierFault::BadEnd)),
    };
    if finished {
        return Err(refused(number, DossierFault::NotSpent));
    }
    match read_path(alloc, line) {
        Ok(path) => Ok(Stage::Ended(Spent {
            problem,
            path,
            rules,
        })),
        Err(PathRead::Bad) => Err(refused(number, DossierFault::BadEnd)),
        Err(PathRead::OutOfMemory) => Err(SpentError::OutOfMemory),
    }
}

// A line after the end line.
fn later_line(spent: Spent, number: u64, line: &[u8]) -> Result<Stage, SpentError>
    ensures goes { GoesOn (stage.Ended spent) number line.now result }
    ensures place { IfOk result (λ next. StandsAt next (number + 1)) }
{
    match Tokens::new(line).next_token() {
        None => Ok(Stage::Ended(spent)),
        Some(_) => Err(refused(number, DossierFault::Trailing)),
    }
}
