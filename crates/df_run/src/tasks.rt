// A command by what it reads.
ghost use Rattle.std.specs.Prelude.{◌≡◌};
ghost use Rattle.df_run.specs.Tasks.{task_of};

use df_words::{Command, Options};

/// The most bytes that a source may have: 1,048,576.
pub const SOURCE_BYTES: u64 = 1_048_576;

/// A command by what it reads.
#[derive(Clone, Copy, Debug, PartialEq, Eq)]
pub enum Task {
    /// It reads a source, of at most `SOURCE_BYTES`.
    Source(SourceTask),
    /// It reads lines one by one, of at most `df_io::MOST_BYTES` together.
    Stream(StreamTask),
    /// It reads nothing: the workload of this number.
    Work(u8),
}

/// What is asked of a source.
#[derive(Clone, Copy, Debug, PartialEq, Eq)]
pub enum SourceTask {
    /// Its canonical lines.
    Show,
    /// Its difference table.
    Table,
    /// Whether its family is what it states, and the development.
    Verify,
    /// Its orbits of pairs and of blocks.
    Orbits,
    /// Its orbit matrix.
    Matrix,
    /// The designs that it asks for.
    Solve(Options),
}

/// What is asked of lines that are read one by one.
#[derive(Clone, Copy, Debug, PartialEq, Eq)]
pub enum StreamTask {
    /// The designs that the search of a dossier which ended spent has still to find.
    Resume(Options),
    /// Whether they are a chain of dossiers that proves its designs to be all.
    Check,
}

impl From<Command> for Task {
    ghost from_gives = { λ command task. task ≡ task_of command };

    fn from(command: Command) -> Self {
        match command {
            Command::Show => Task::Source(SourceTask::Show),
            Command::Table => Task::Source(SourceTask::Table),
            Command::Verify => Task::Source(SourceTask::Verify),
            Command::Orbits => Task::Source(SourceTask::Orbits),
            Command::Matrix => Task::Source(SourceTask::Matrix),
            Command::Solve(options) => Task::Source(SourceTask::Solve(options)),
            Command::Resume(options) => Task::Stream(StreamTask::Resume(options)),
            Command::Check => Task::Stream(StreamTask::Check),
            Command::Workload(number) => Task::Work(number),
        }
    }
}
