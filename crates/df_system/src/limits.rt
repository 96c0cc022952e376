/// The most entries of a system: of all, where all are given; of the positive ones, where its columns are given by their cells.
pub const MOST_ENTRIES: usize = 16_777_216;

/// The most columns of a system whose columns are given by their cells.
pub const MOST_COLUMNS: usize = 65_536;

/// A system has fewer rows than this.
pub const ROW_LIMIT: usize = 4_294_967_296;
