// What the program can be asked for.

/// How designs are searched for, by a new search or by one that goes on, and what is written beside them.
#[derive(Clone, Copy, Debug, PartialEq, Eq)]
pub struct Options {
    /// The most nodes that are visited, from `LEAST_BUDGET` to `MOST_BUDGET`; `DEFAULT_BUDGET` where none is stated.
    pub budget: u64,
    /// Whether the log is written: each entry that the search comes by.
    pub log: bool,
    /// Whether all blocks of each design are written, as comments or beside its base blocks.
    pub blocks: bool,
    /// Whether the designs are written as a JSON listing, in place of a dossier. It is never stated with the log, nor to a
    /// search that goes on.
    pub json: bool,
}

/// What the program is asked to do.
#[derive(Clone, Copy, Debug, PartialEq, Eq)]
pub enum Command {
    /// The canonical lines of a source.
    Show,
    /// The difference table of a family.
    Table,
    /// Whether a family is what it states, and its development.
    Verify,
    /// The orbits of pairs and of blocks under the maps of a problem.
    Orbits,
    /// The orbit matrix of a problem.
    Matrix,
    /// The designs that a problem asks for.
    Solve(Options),
    /// The designs that a search has still to find, which ended spent: it goes on where its dossier says.
    Resume(Options),
    /// Whether a chain of dossiers is a log that proves its designs to be all.
    Check,
    /// How long the search for one design takes: the problem of this number, from `LEAST_WORKLOAD` to `MOST_WORKLOAD`.
    Workload(u8),
}
