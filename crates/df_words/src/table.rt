// The table of commands and options: a command or an option more is a row in each function that speaks of it.
ghost use Rattle.std.specs.Prelude.{◌≡◌};
ghost use Rattle.df_words.specs.Table.{named, flagged, takes, excludes, number, value, has, with_option, options_in, IsNumberOf, command_named};

use crate::command::{Command, Options};

/// The commands, by their words.
#[derive(Clone, Copy, Debug, PartialEq, Eq)]
pub enum Name {
    Show,
    Table,
    Verify,
    Orbits,
    Matrix,
    Solve,
    Resume,
    Check,
    Workload,
}

/// The options, by their words.
#[derive(Clone, Copy, Debug, PartialEq, Eq)]
pub enum Flag {
    Budget,
    Log,
    Blocks,
    Json,
}

/// The numbers that may stand in a place, both ends included.
#[derive(Clone, Copy, Debug, PartialEq, Eq)]
pub struct Bounds {
    pub least: u64,
    pub most: u64,
}

/// The options stated so far.
#[derive(Clone, Copy, Debug, PartialEq, Eq)]
pub struct Stated {
    pub budget: Option<u64>,
    pub log: bool,
    pub blocks: bool,
    pub json: bool,
}

/// No option.
pub const NOTHING_STATED: Stated = Stated {
    budget: None,
    log: false,
    blocks: false,
    json: false,
};

/// The least budget.
pub const LEAST_BUDGET: u64 = 1;

/// The greatest budget.
pub const MOST_BUDGET: u64 = 1_000_000_000_000_000;

/// The budget where none is stated.
pub const DEFAULT_BUDGET: u64 = 1_000_000_000;

/// The least number of a workload.
pub const LEAST_WORKLOAD: u64 = 1;

/// The greatest number of a workload.
pub const MOST_WORKLOAD: u64 = 20;

/// The command that a word names.
pub fn named(word: &str) -> Option<Name>
    ensures { result ≡ named word.now }
{
    match word {
        "show" => Some(Name::Show),
        "table" => Some(Name::Table),
        "verify" => Some(Name::Verify),
        "orbits" => Some(Name::Orbits),
        "matrix" => Some(Name::Matrix),
        "solve" => Some(Name::Solve),
        "resume" => Some(Name::Resume),
        "check" => Some(Name::Check),
        "workload" => Some(Name::Workload),
        _ => None,
    }
}

/// The option that a word names.
pub fn flagged(word: &str) -> Option<Flag>
    ensures { result ≡ flagged word.now }
{
    match word {
        "--budget" => Some(Flag::Budget),
        "--log" => Some(Flag::Log),
        "--blocks" => Some(Flag::Blocks),
        "--json" => Some(Flag::Json),
        _ => None,
    }
}

/// Whether a command has an option.
pub fn takes(name: Name, flag: Flag) -> bool
    ensures { result ≡ takes name flag }
{
    match (name, flag) {
        (Name::Show, _) => false,
        (Name::Table, _) => false,
        (Name::Verify, _) => false,
        (Name::Orbits, _) => false,
        (Name::Matrix, _) => false,
        (Name::Solve, _) => true,
        (Name::Resume, Flag::Json) => false,
        (Name::Resume, _) => true,
        (Name::Check, _) => false,
        (Name::Workload, _) => false,
    }
}

/// Whether the first option excludes the second. Each excludes itself, so that it stands at most once.
pub fn excludes(first: Flag, second: Flag) -> bool
    ensures { result ≡ excludes first second }
{
    match (first, second) {
        (Flag::Budget, Flag::Budget) => true,
        (Flag::Log, Flag::Log | Flag::Json) => true,
        (Flag::Blocks, Flag::Blocks) => true,
        (Flag::Json, Flag::Json | Flag::Log) => true,
        _ => false,
    }
}

/// The numbers that may follow a command's word, where it wants one.
pub fn number(name: Name) -> Option<Bounds>
    ensures { result ≡ number name }
{
    match name {
        Name::Show => None,
        Name::Table => None,
        Name::Verify => None,
        Name::Orbits => None,
        Name::Matrix => None,
        Name::Solve => None,
        Name::Resume => None,
        Name::Check => None,
        Name::Workload => Some(Bounds {
            least: LEAST_WORKLOAD,
            most: MOST_WORKLOAD,
        }),
    }
}

/// The numbers that may follow an option's word, where it wants one.
pub fn value(flag: Flag) -> Option<Bounds>
    ensures { result ≡ value flag }
{
    match flag {
        Flag::Budget => Some(Bounds {
            least: LEAST_BUDGET,
            most: MOST_BUDGET,
        }),
        Flag::Log | Flag::Blocks | Flag::Json => None,
    }
}

impl Stated {
    /// Whether an option is stated.
    pub fn has(self, flag: Flag) -> bool
        ensures { result ≡ has self flag }
    {
        match flag {
            Flag::Budget => self.budget.is_some(),
            Flag::Log => self.log,
            Flag::Blocks => self.blocks,
            Flag::Json => self.json,
        }
    }

    /// One option more, with its number, which is 0 where it wants none.
    pub fn with(self, flag: Flag, number: u64) -> Stated
        ensures { result ≡ with_option self flag number }
    {
        match flag {
            Flag::Budget => Stated {
                budget: Some(number),
                ..self
            },
            Flag::Log => Stated { log: true, ..self },
            Flag::Blocks => Stated {
                blocks: true,
                ..self
            },
            Flag::Json => Stated { json: true, ..self },
        }
    }

    // The options of a search, each as stated or else as it is where it isn't.
    fn options(self) -> Options
        ensures { result ≡ options_in self }
    {
        Options {
            budget: self.budget.unwrap_or(DEFAULT_BUDGET),
            log: self.log,
            blocks: self.blocks,
            json: self.json,
        }
    }
}

/// The command of a name, of the number that followed it, which is 0 where it wants none, and of the options stated.
pub fn command(name: Name, number: u64, stated: Stated) -> Command
    requires { IsNumberOf name number }
    ensures { result ≡ command_named name number stated }
{
    match name {
        Name::Show => Command::Show,
        Name::Table => Command::Table,
        Name::Verify => Command::Verify,
        Name::Orbits => Command::Orbits,
        Name::Matrix => Command::Matrix,
        Name::Solve => Command::Solve(stated.options()),
        Name::Resume => Command::Resume(stated.options()),
        Name::Check => Command::Check,
        Name::Workload => Command::Workload(number as u8),
    }
}
