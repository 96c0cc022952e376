// The reader of words.
ghost use Rattle.std.specs.Prelude.{◌≡◌, map, string_bytes, ◌≤◌, Some, IfSome, IfOk, IfErr};
ghost use Rattle.df_words.specs.Table.{number, number_in};
ghost use Rattle.df_words.specs.Reading.{after, ended, is_free, with_flag, begun, IsReady};
ghost use Rattle.df_words.specs.CommandLines.{IsCommandLine, IsFirstFault};

use crate::command::Command;
use crate::table::{
    Bounds, Flag, NOTHING_STATED, Name, Stated, command, excludes, flagged, named, number, takes,
    value,
};
use df_io::{NumberRead, read_number};

/// The words are not a command.
#[derive(Clone, Copy, Debug, PartialEq, Eq)]
pub struct UsageFault {
    /// The number, from 1, of the first word such that no command line begins with the words up to it; where the
    /// words can go on to a command line, the number of the word that is missing.
    pub word: usize,
}

/// What was read so far.
#[derive(Clone, Copy, Debug, PartialEq, Eq)]
pub enum Reading {
    /// Nothing.
    Start,
    /// The word of a command that wants a number.
    Number(Name),
    /// A command, its number and these options.
    Given(Name, u64, Stated),
    /// The same, and then the word of an option that wants a number.
    Value(Name, u64, Stated, Flag),
}

/// The command that the words after the program's name ask for. It takes no memory.
///
/// # Errors
///
/// [`UsageFault`] where the words are not a command line.
pub fn read_words(words: &[String]) -> Result<Command, UsageFault>
    ensures command { IfOk result (IsCommandLine (map string_bytes words.now)) }
    ensures fault { IfErr result (λ fault. IsFirstFault (map string_bytes words.now) fault.word) }
{
    let mut reading = Reading::Start;
    for (place, word) in words.iter().enumerate() {
        match step(reading, word.as_str()) {
            Some(next) => reading = next,
            None => return Err(UsageFault { word: place + 1 }),
        }
    }
    match end(reading) {
        Some(command) => Ok(command),
        None => Err(UsageFault {
            word: words.len() + 1,
        }),
    }
}

// What was read with one word more, where the words can go on so.
fn step(reading: Reading, word: &str) -> Option<Reading>
    ensures { result ≡ after reading word.now }
{
    match reading {
        Reading::Start => Some(begin(named(word)?)),
        Reading::Number(name) => {
            let number = read_in(word, number(name))?;
            Some(Reading::Given(name, number, NOTHING_STATED))
        }
        Reading::Given(name, number, stated) => state(name, number, stated, flagged(word)?),
        Reading::Value(name, number, stated, flag) => {
            let value = read_in(word, value(flag))?;
            Some(Reading::Given(name, number, stated.with(flag, value)))
        }
    }
}

// A command's word was read.
fn begin(name: Name) -> Reading
    ensures { result ≡ begun (number name) name }
{
    match number(name) {
        Some(_) => Reading::Number(name),
        None => Reading::Given(name, 0, NOTHING_STATED),
    }
}

// The number that a word spells, where one is wanted and it is within the bounds.
fn read_in(word: &str, wanted: Option<Bounds>) -> Option<u64>
    ensures { result ≡ number_in wanted word.now }
{
    let bounds = wanted?;
    match read_number(word.as_bytes()) {
        NumberRead::Value(value) if bounds.least <= value && value <= bounds.most => Some(value),
        _ => None,
    }
}

// An option's word was read: the command must take it, and no option stated may exclude it.
fn state(name: Name, number: u64, stated: Stated, flag: Flag) -> Option<Reading>
    ensures { result ≡ with_flag name number stated flag }
{
    if !takes(name, flag) || !is_free(stated, flag) {
        return None;
    }
    match value(flag) {
        Some(_) => Some(Reading::Value(name, number, stated, flag)),
        None => Some(Reading::Given(name, number, stated.with(flag, 0))),
    }
}

// No option stated excludes this one.
fn is_free(stated: Stated, flag: Flag) -> bool
    ensures { result ≡ is_free stated flag }
{
    !(stated.has(Flag::Budget) && excludes(Flag::Budget, flag))
        && !(stated.has(Flag::Log) && excludes(Flag::Log, flag))
        && !(stated.has(Flag::Blocks) && excludes(Flag::Blocks, flag))
        && !(stated.has(Flag::Json) && excludes(Flag::Json, flag))
}

// The command, where the words may end here.
fn end(reading: Reading) -> Option<Command>
    requires { IsReady reading }
    ensures { result ≡ ended reading }
{
    match reading {
        Reading::Given(name, number, stated) => Some(command(name, number, stated)),
        _ => None,
    }
}
