// How a run ends.
ghost use Rattle.std.specs.Prelude.{◌≡◌};
ghost use Rattle.df_run.specs.Statuses.{code_of};

/// How a run of the program ends.
#[derive(Clone, Copy, Debug, PartialEq, Eq)]
pub enum Status {
    /// The command is done: shown, accepted, complete, or all designs listed.
    Done,
    /// `verify`: a row of the difference table differs from what is stated. `check`: a line breaks a rule of logs or of chains, or the
    /// log is open at its end.
    Refused,
    /// The words are not a command. Nothing was read.
    Usage,
    /// The input can't be read as the command wants it, the problem that it states is above a limit, or its path isn't a node.
    BadInput,
    /// A read failed. Nothing was written.
    ReadFault,
    /// A write failed. A proper prefix of the text was written.
    WriteFault,
    /// Out of memory. Nothing was written.
    OutOfMemory,
    /// `solve`, `resume` and `workload`: a node remains that the budget doesn't pay.
    Spent,
    /// More bytes came than the limit on input allows. Nothing was written.
    TooLong,
}

impl Status {
    /// The exit status of the program: 0 to 8, in the order of the variants.
    pub fn code(self) -> u8
        ensures { result ≡ code_of self }
    {
        self as u8
    }
}
