// The lines of the table of pairs of points.
ghost use Rattle.std.specs.Prelude.{◌≡◌, ◌≤◌, ◌+◌, ◌++◌, length};
ghost use Rattle.arrayvec.specs.ArrayVec.{array_vec_len};
ghost use Rattle.df_list.specs.PairTexts.{pair_name, pair_row_text};

use df_io::{LineBuf, put_number, put_text};
use df_lang::{Problem, point_text_is_short, put_point};
use df_subsets::Point;

/// Appends the line of a row of the table of pairs, without a line feed: two points, how often the pairs of their class
/// are found together and how often that is stated. The buffer has room for the text; `pair_row_text_is_short` says how
/// much is enough.
pub fn put_pair_row(
    buf: &mut LineBuf,
    problem: &Problem,
    p: Point,
    q: Point,
    found: u64,
    stated: u64,
)
    requires room { array_vec_len buf.old + length (pair_row_text problem.now p q found stated) ≤ 1024 }
    ensures text { buf.new.items ≡ buf.old.items ++ pair_row_text problem.now p q found stated }
    ensures len { array_vec_len buf.new ≡ array_vec_len buf.old + length (pair_row_text problem.now p q found stated) }
{
    put_pair_name(buf, problem, p, q);
    put_text(buf, b" found ");
    put_number(buf, found);
    put_text(buf, b" stated ");
    put_number(buf, stated);
}

/// The text of a row of pairs has at most 120 bytes. The call changes nothing.
pub fn pair_row_text_is_short(problem: &Problem, p: Point, q: Point, found: u64, stated: u64)
    ensures { length (pair_row_text problem.now p q found stated) ≤ 120 }
{
    pair_name_is_short(problem, p, q);
}

// The name of a pair has at most 63 bytes.
fn pair_name_is_short(problem: &Problem, p: Point, q: Point)
    ensures { length (pair_name problem.now p q) ≤ 63 }
{
    point_text_is_short(problem, p);
    point_text_is_short(problem, q);
}

// Appends which pair a row is of.
fn put_pair_name(buf: &mut LineBuf, problem: &Problem, p: Point, q: Point)
    requires room { array_vec_len buf.old + length (pair_name problem.now p q) ≤ 1024 }
    ensures text { buf.new.items ≡ buf.old.items ++ pair_name problem.now p q }
    ensures len { array_vec_len buf.new ≡ array_vec_len buf.old + length (pair_name problem.now p q) }
{
    put_text(buf, b"pair ");
    put_point(buf, problem, p);
    put_text(buf, b" ");
    put_point(buf, problem, q);
}
