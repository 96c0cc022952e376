// The lines of the difference table.
ghost use Rattle.std.specs.Prelude.{◌≡◌, ◌≤◌, ◌<◌, ◌+◌, ◌-◌, ◌++◌, length};
ghost use Rattle.arrayvec.specs.ArrayVec.{array_vec_len};
ghost use Rattle.df_family.specs.Tables.{fixed_point as point_of, IsRow, IsFixed};
ghost use Rattle.df_list.specs.TableTexts.{row_name, row_text};

use df_family::Row;
use df_io::{LineBuf, put_number, put_text};
use df_lang::{Problem, point_text_is_short, put_point};
use df_subsets::Point;

/// Appends the line of a row of the difference table, without a line feed: what the row counts, how often it is found
/// and how often that is stated. The row is one of the problem's table. The buffer has room for the text;
/// `row_text_is_short` says how much is enough.
pub fn put_table_row(buf: &mut LineBuf, problem: &Problem, row: Row, found: u64, stated: u64)
    requires row { IsRow problem.now row }
    requires room { array_vec_len buf.old + length (row_text problem.now row found stated) ≤ 1024 }
    ensures text { buf.new.items ≡ buf.old.items ++ row_text problem.now row found stated }
    ensures len { array_vec_len buf.new ≡ array_vec_len buf.old + length (row_text problem.now row found stated) }
{
    put_row_name(buf, problem, row);
    put_text(buf, b" found ");
    put_number(buf, found);
    put_text(buf, b" stated ");
    put_number(buf, stated);
}

/// The text of a row has at most 120 bytes. The call changes nothing.
pub fn row_text_is_short(problem: &Problem, row: Row, found: u64, stated: u64)
    requires { IsRow problem.now row }
    ensures { length (row_text problem.now row found stated) ≤ 120 }
{
    row_name_is_short(problem, row);
}

// The name of a row has at most 63 bytes.
fn row_name_is_short(problem: &Problem, row: Row)
    requires { IsRow problem.now row }
    ensures { length (row_name problem.now row) ≤ 63 }
{
    match row {
        Row::Diff(d) => point_text_is_short(problem, Point(d.0)),
        Row::WithFixed(i) => point_text_is_short(problem, fixed_point(problem, i)),
        Row::TwoFixed(i, j) => {
            point_text_is_short(problem, fixed_point(problem, i));
            point_text_is_short(problem, fixed_point(problem, j));
        }
    }
}

// Appends what a row counts.
fn put_row_name(buf: &mut LineBuf, problem: &Problem, row: Row)
    requires row { IsRow problem.now row }
    requires room { array_vec_len buf.old + length (row_name problem.now row) ≤ 1024 }
    ensures text { buf.new.items ≡ buf.old.items ++ row_name problem.now row }
    ensures len { array_vec_len buf.new ≡ array_vec_len buf.old + length (row_name problem.now row) }
{
    match row {
        Row::Diff(d) => {
            put_text(buf, b"diff ");
            put_point(buf, problem, Point(d.0));
        }
        Row::WithFixed(i) => {
            put_text(buf, b"fixed ");
            put_point(buf, problem, fixed_point(problem, i));
        }
        Row::TwoFixed(i, j) => {
            put_text(buf, b"fixed ");
            put_point(buf, problem, fixed_point(problem, i));
            put_text(buf, b" ");
            put_point(buf, problem, fixed_point(problem, j));
        }
    }
}

// The point of a fixed point's number, from 1.
fn fixed_point(problem: &Problem, i: u8) -> Point
    requires { IsFixed problem.now i }
    ensures { result ≡ point_of problem.now i }
{
    Point(problem.shape.order() + (i - 1))
}
