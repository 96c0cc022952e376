//! Sources and problems: what a source states of a group, its fixed points, its targets and its blocks, and the rules that each problem keeps.
//! It stands on df_io for lines and tokens, on df_group for the group, on df_subsets for the blocks, on df_sets for sets of sizes, and on indexmap for names in order of appearance.
//! The crates above read sources by `parse` and print problems by `print`; they see a `Problem` as a record of numbers and lists, and cite the meaning of a
//! source, the canonical lines, the target of two points and the balance of a list of blocks.
//! Laws for the rooms above: proofs/EachMember, proofs/RulesKept, proofs/SourcesKept.
#![tactic(auto)]

mod block_lines;
mod blocks;
mod canonical;
mod copies;
mod draft;
mod elements;
mod fault;
mod generators;
mod groups;
mod keywords;
mod lookups;
mod multipliers;
mod names;
mod pieces;
mod print_points;
mod print_statements;
#[cfg(test)]
mod printing_tests;
mod problem;
mod read_points;
mod reader;
#[cfg(test)]
mod reading_tests;
mod round_trip;
mod rules;
mod sizes;
mod sources;
mod statements;
mod targets;
mod tokens;

pub use canonical::{canonical_lines_are_short, line_count, print};
pub use fault::{Needed, ParseError, SourceError, SourceFault};
pub use pieces::{Inside, Kind, Member, Name, Which};
pub use print_points::{block_text_is_short, point_text_is_short, put_block, put_point};
pub use problem::{MOST_BLOCKS, MOST_TARGET, NAMES_LIMIT, Problem};
pub use read_points::read_point;
pub use round_trip::{
    canonical_lines_are_lines, canonical_lines_are_read_back, points_are_read_back,
    problem_is_read_back,
};
pub use rules::{problems_keep_their_rules, sources_keep_their_rules};
pub use sources::parse;
pub use targets::target;

/// Out of memory.
pub type OutOfMemory = std::alloc::AllocError;
