// The canonical lines of a problem, by their numbers.
ghost use Rattle.std.specs.Bool.{OnFalse};
ghost use Rattle.std.specs.Prelude.{◌≡◌, ◌<◌, [], Some, None, All, if◌then◌else◌, length, slice_get, slice_index_or};
ghost use Rattle.arrayvec.specs.ArrayVec.{array_vec_len};
ghost use Rattle.df_io.specs.Joined.{spaced};
ghost use Rattle.df_lang.specs.Canonical.{canonical, statements_in, subgroup_tokens};

use crate::print_statements::{
    put_block_statement, put_inside, put_member, put_number_statement, put_numbers_statement,
    put_shift, put_sizes_statement, put_subgroup,
};
use crate::problem::{NAMES_LIMIT, Problem};
use df_io::{LineBuf, put_text};

/// A section of the canonical lines: the statements of one kind.
#[derive(Clone, Copy)]
pub(crate) enum Section {
    Version,
    Group,
    Fixed,
    Subgroups,
    Shift,
    Mult,
    Sizes,
    Lambda,
    Inside,
    Hole,
    Family,
    Required,
    Forbidden,
}

// The sections in the order of their lines.
const SECTIONS: [Section; 13] = [
    Section::Version,
    Section::Group,
    Section::Fixed,
    Section::Subgroups,
    Section::Shift,
    Section::Mult,
    Section::Sizes,
    Section::Lambda,
    Section::Inside,
    Section::Hole,
    Section::Family,
    Section::Required,
    Section::Forbidden,
];

/// Clears the buffer and puts the canonical line of this number, from 0, without a line end.
/// False, with an empty buffer, exactly where there is no such line.
pub fn print(problem: &Problem, buf: &mut LineBuf, line: usize) -> bool
    ensures line { slice_get (canonical problem.now) line ≡ (if result then Some buf.new.items else None) }
    ensures empty { OnFalse result (buf.new.items ≡ []) }
    ensures room { array_vec_len buf.new < 1024 }
{
    canonical_lines_are_short(problem);
    buf.clear();
    let mut before = 0;
    for section in SECTIONS {
        let count = statement_count(problem, section);
        if line - before < count {
            put_statement(buf, problem, section, line - before);
            return true;
        }
        before += count;
    }
    false
}

/// The number of canonical lines.
pub fn line_count(problem: &Problem) -> usize
    ensures { result ≡ length (canonical problem.now) }
{
    let mut count = 0;
    for section in SECTIONS {
        count += statement_count(problem, section);
    }
    count
}

/// Each canonical line has fewer than 1,024 bytes, so that it fits a buffer with its line end. The call changes nothing.
pub fn canonical_lines_are_short(problem: &Problem)
    ensures { All (λ line. length line < 1024) (canonical problem.now) }
{
    let _version = problem.version;
}

// How many statements a section has.
#[tactic(auto, unfolding(crate::specs::Canonical::statements_in))]
fn statement_count(problem: &Problem, section: Section) -> usize
    ensures count { result ≡ length (statements_in problem.now section) }
    ensures small { result < NAMES_LIMIT }
{
    match section {
        Section::Version => usize::from(problem.version == 2),
        Section::Subgroups => problem.names.len(),
        Section::Mult => usize::from(!problem.mults.is_empty()),
        Section::Inside => usize::from(problem.inside.is_some()),
        Section::Family => problem.family.len(),
        Section::Required => problem.required.len(),
        Section::Forbidden => problem.forbidden.len(),
        Section::Group
        | Section::Fixed
        | Section::Shift
        | Section::Sizes
        | Section::Lambda
        | Section::Hole => 1,
    }
}

// Puts a section's statement of this number into an empty buffer.
#[tactic(auto, unfolding(crate::specs::Canonical::statements_in))]
fn put_statement(buf: &mut LineBuf, problem: &Problem, section: Section, number: usize)
    requires number { number < length (statements_in problem.now section) }
    requires empty { buf.old.items ≡ [] }
    ensures { buf.new.items ≡ spaced (slice_index_or (statements_in problem.now section) number []) }
{
    match section {
        Section::Version => put_text(buf, b"version 2"),
        Section::Group => put_numbers_statement(buf, b"group", problem.shape.factors()),
        Section::Fixed => put_number_statement(buf, b"fixed", u64::from(problem.fixed)),
        Section::Subgroups => put_named(buf, problem, number),
        Section::Shift => put_shift(buf, problem, problem.shift),
        Section::Mult => put_numbers_statement(buf, b"mult", problem.mults.as_slice()),
        Section::Sizes => put_sizes_statement(buf, b"k", problem.sizes.as_slice()),
        Section::Lambda => put_number_statement(buf, b"lambda", u64::from(problem.lambda)),
        Section::Inside => {
            if let Some(inside) = problem.inside {
                put_inside(buf, problem, inside);
            }
        }
        Section::Hole => put_number_statement(buf, b"hole", u64::from(problem.hole)),
        Section::Family => put_member(buf, problem, &problem.family[number]),
        Section::Required => {
            put_block_statement(buf, b"require", problem, &problem.required[number])
        }
        Section::Forbidden => {
            put_block_statement(buf, b"forbid", problem, &problem.forbidden[number])
        }
    }
}

// Puts the name of this number and its subgroup into an empty buffer.
fn put_named(buf: &mut LineBuf, problem: &Problem, number: usize)
    requires number { number < length problem.now.names }
    requires empty { buf.old.items ≡ [] }
    ensures { buf.new.items ≡ spaced (subgroup_tokens problem.now.group (slice_index_or problem.now.names number ([], []))) }
{
    if let Some((name, subgroup)) = problem.names.get_index(number) {
        put_subgroup(buf, &problem.shape, name.as_slice(), subgroup);
    }
}
