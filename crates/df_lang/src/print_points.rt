// The texts of points and blocks.
ghost use Rattle.std.specs.Prelude.{◌≡◌, ◌≤◌, ◌<◌, ◌+◌, ◌*◌, ◌++◌, ◌∷◌, length, map};
ghost use Rattle.std.specs.Fmt.{decimal};
ghost use Rattle.arrayvec.specs.ArrayVec.{array_vec_len};
ghost use Rattle.df_group.specs.Elements.{order_of};
ghost use Rattle.df_lang.specs.Canonical.{element_text, point_text, block_text};
ghost use Rattle.df_lang.specs.Separated.{each_after};

use crate::problem::Problem;
use df_group::{Elem, Shape};
use df_io::{LineBuf, put_number, put_text};
use df_subsets::{Block, Point};

/// Appends the point's text: an element as its residues with commas between, a fixed point as `inf` and its number from 1.
/// The buffer has room for it; `point_text_is_short` says how much is enough.
pub fn put_point(buf: &mut LineBuf, problem: &Problem, p: Point)
    requires { array_vec_len buf.old + length (point_text problem.now.group p) ≤ 1024 }
    ensures text { buf.new.items ≡ buf.old.items ++ point_text problem.now.group p }
    ensures len { array_vec_len buf.new ≡ array_vec_len buf.old + length (point_text problem.now.group p) }
{
    let order = problem.shape.order();
    if p.0 < order {
        put_element(buf, &problem.shape, Elem(p.0));
    } else {
        put_text(buf, b"inf");
        put_number(buf, u64::from(p.0 - order) + 1);
    }
}

/// Appends the points of the block, increasing, with single spaces between.
/// The buffer has room for them; `block_text_is_short` says how much is enough.
pub fn put_block(buf: &mut LineBuf, problem: &Problem, block: &Block)
    requires { array_vec_len buf.old + length (block_text problem.now.group block.now) ≤ 1024 }
    ensures text { buf.new.items ≡ buf.old.items ++ block_text problem.now.group block.now }
    ensures len { array_vec_len buf.new ≡ array_vec_len buf.old + length (block_text problem.now.group block.now) }
{
    let points = block.points();
    let points = points.as_slice();
    if points.is_empty() {
        return;
    }
    put_point(buf, problem, points[0]);
    put_points_after(buf, problem, &points[1..]);
}

/// A point's text has at most 28 bytes. The call reads and changes nothing.
pub fn point_text_is_short(problem: &Problem, p: Point)
    ensures { length (point_text problem.now.group p) ≤ 28 }
{
    let _fixed = problem.fixed;
    let _number = p.0;
}

/// A block's text has at most 29 bytes for each of its points. The call changes nothing.
pub fn block_text_is_short(problem: &Problem, block: &Block)
    ensures { length (block_text problem.now.group block.now) ≤ 29 * length block.now }
{
    let _fixed = problem.fixed;
    let _points = block.points();
}

/// Appends the points, each after a space.
pub(crate) fn put_points_after(buf: &mut LineBuf, problem: &Problem, points: &[Point])
    requires { array_vec_len buf.old + length (each_after 32 (map (point_text problem.now.group) points.now)) ≤ 1024 }
    ensures text { buf.new.items ≡ buf.old.items ++ each_after 32 (map (point_text problem.now.group) points.now) }
    ensures len { array_vec_len buf.new ≡ array_vec_len buf.old + length (each_after 32 (map (point_text problem.now.group) points.now)) }
{
    for p in points {
        buf.push(b' ');
        put_point(buf, problem, *p);
    }
}

/// Appends the residues of an element below the order, with commas between.
pub(crate) fn put_element(buf: &mut LineBuf, shape: &Shape, e: Elem)
    requires element { e < order_of shape.now }
    requires room { array_vec_len buf.old + length (element_text shape.now e) ≤ 1024 }
    ensures text { buf.new.items ≡ buf.old.items ++ element_text shape.now e }
    ensures len { array_vec_len buf.new ≡ array_vec_len buf.old + length (element_text shape.now e) }
{
    let residues = shape.coords(e);
    let residues = residues.as_slice();
    if residues.is_empty() {
        return;
    }
    put_number(buf, u64::from(residues[0]));
    put_numbers_after(buf, b',', &residues[1..]);
}

/// Appends the numbers, each after this byte.
pub(crate) fn put_numbers_after(buf: &mut LineBuf, byte: u8, numbers: &[u16])
    requires { array_vec_len buf.old + length (each_after byte (map decimal numbers.now)) ≤ 1024 }
    ensures text { buf.new.items ≡ buf.old.items ++ each_after byte (map decimal numbers.now) }
    ensures len { array_vec_len buf.new ≡ array_vec_len buf.old + length (each_after byte (map decimal numbers.now)) }
{
    for number in numbers {
        buf.push(byte);
        put_number(buf, u64::from(*number));
    }
}
