// The top call.
ghost use Rattle.std.specs.Prelude.{◌≤◌, map, string_bytes};
ghost use Rattle.df_run.specs.Endings.{EndsAs, Answers, IsUnreadByWork};
ghost use Rattle.df_run.specs.Headline.{Headline};
ghost use Rattle.df_run.specs.Streams.{incoming, outgoing};

use crate::answers::{answer_bytes, ended};
use crate::check::answer_check;
use crate::resume::answer_resume;
use crate::statuses::Status;
use crate::tasks::{SOURCE_BYTES, SourceTask, StreamTask, Task};
use crate::workload::answer_workload;
use df_check::chain_laws::{
    bases_are_representatives, chains_are_decided, chains_keep_their_rules,
};
use df_check::design_laws::chains_list_all_designs;
use df_correspondence::designs_are_solutions;
use df_dossier::spent_dossiers_keep_their_rules;
use df_family::{table_tells_balance, verdict_tells_balance};
use df_io::{ReadError, Sink, Source, read_all};
use df_kramer_mesner::orbit_systems_are_systems;
use df_lang::sources_keep_their_rules;
use df_runs::laws::runs_are_whole;
use df_search::paths_have_reasons;
use df_tell::write_usage;
use df_words::{commands_are_their_lines, read_words, workloads_are_numbered};
use std::alloc::Global;

/// Runs the command of the words over an input, and writes its text.
///
/// `Usage` comes where the words are not a command, and nothing is read then; a workload reads nothing either. Else `ReadFault` and `TooLong` come where
/// the input was not read to its end; `BadInput` where it is not what the command reads, the problem is above a limit of the
/// command, or a search can't go on at its path; `Refused` only from `verify` and `check`; `Spent` only from `solve`, `resume` and `workload`; and `Done`
/// with the command's text. `WriteFault` comes where the sink failed before the end of the text, and `OutOfMemory` may come before
/// its first byte.
pub fn run<I: Source, O: Sink>(
    alloc: Global,
    words: &[String],
    input: &mut I,
    out: &mut O,
) -> Status
    ensures ends { EndsAs (map string_bytes words.now) (incoming I.left I.faults input.old input.new) (outgoing O.written O.faults out.old out.new) result }
    ensures headline { Headline (map string_bytes words.now) (incoming I.left I.faults input.old input.new) (outgoing O.written O.faults out.old out.new) result }
    ensures unread { IsUnreadByWork (map string_bytes words.now) (incoming I.left I.faults input.old input.new) }
    ensures reads { I.faults input.old ≤ I.faults input.new }
    ensures writes { O.faults out.old ≤ O.faults out.new }
{
    commands_are_their_lines();
    workloads_are_numbered();
    sources_keep_their_rules();
    spent_dossiers_keep_their_rules();
    table_tells_balance();
    verdict_tells_balance();
    orbit_systems_are_systems();
    runs_are_whole();
    paths_have_reasons();
    designs_are_solutions();
    chains_are_decided();
    chains_keep_their_rules();
    chains_list_all_designs();
    bases_are_representatives();
    run_words(alloc, words, input, out)
}

// The same, without what it says of designs.
fn run_words<I: Source, O: Sink>(
    alloc: Global,
    words: &[String],
    input: &mut I,
    out: &mut O,
) -> Status
    ensures ends { EndsAs (map string_bytes words.now) (incoming I.left I.faults input.old input.new) (outgoing O.written O.faults out.old out.new) result }
    ensures reads { I.faults input.old ≤ I.faults input.new }
    ensures writes { O.faults out.old ≤ O.faults out.new }
{
    let command = match read_words(words) {
        Ok(command) => command,
        Err(fault) => return ended(Status::Usage, write_usage(fault.word, out)),
    };
    match Task::from(command) {
        Task::Source(task) => answer_source(alloc, task, input, out),
        Task::Stream(task) => answer_stream(alloc, task, input, out),
        Task::Work(number) => answer_workload(alloc, number, out),
    }
}

// Answers a task that reads a source.
fn answer_source<I: Source, O: Sink>(
    alloc: Global,
    task: SourceTask,
    input: &mut I,
    out: &mut O,
) -> Status
    ensures answers { Answers (Task.Source task) (incoming I.left I.faults input.old input.new) (outgoing O.written O.faults out.old out.new) result }
    ensures reads { I.faults input.old ≤ I.faults input.new }
    ensures writes { O.faults out.old ≤ O.faults out.new }
{
    match read_all(alloc, input, SOURCE_BYTES) {
        Ok(bytes) => answer_bytes(alloc, task, bytes.as_slice(), out),
        Err(ReadError::ReadFault) => Status::ReadFault,
        Err(ReadError::TooLong) => Status::TooLong,
        Err(ReadError::OutOfMemory) => Status::OutOfMemory,
    }
}

// Answers a task that reads lines one by one.
fn answer_stream<I: Source, O: Sink>(
    alloc: Global,
    task: StreamTask,
    input: &mut I,
    out: &mut O,
) -> Status
    ensures answers { Answers (Task.Stream task) (incoming I.left I.faults input.old input.new) (outgoing O.written O.faults out.old out.new) result }
    ensures reads { I.faults input.old ≤ I.faults input.new }
    ensures writes { O.faults out.old ≤ O.faults out.new }
{
    match task {
        StreamTask::Resume(options) => answer_resume(alloc, options, input, out),
        StreamTask::Check => answer_check(alloc, input, out),
    }
}
