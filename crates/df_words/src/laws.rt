// What the words of a command are: laws, each the contract of a function that does nothing.
ghost use Rattle.df_words.specs.Reading.{CommandLineLaw, WorkloadLaw};

/// Words that are read to a command are exactly its command lines.
pub fn commands_are_their_lines()
    ensures { CommandLineLaw }
{}

/// The number of a workload is from `LEAST_WORKLOAD` to `MOST_WORKLOAD`.
pub fn workloads_are_numbered()
    ensures { WorkloadLaw }
{}
