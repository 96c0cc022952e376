// The texts of statements, put together in a buffer.
ghost use Rattle.std.specs.Prelude.{◌≡◌, ◌≤◌, ◌<◌, ◌+◌, ◌++◌, ◌∷◌, [], All, codes, length, map};
ghost use Rattle.std.specs.Fmt.{decimal};
ghost use Rattle.arrayvec.specs.ArrayVec.{array_vec_len};
ghost use Rattle.df_io.specs.Joined.{spaced};
ghost use Rattle.df_group.specs.Elements.{order_of};
ghost use Rattle.df_group.specs.Subgroups.{IsSubgroup};
ghost use Rattle.df_lang.specs.Canonical.{element_text, which_text, number_tokens, subgroup_tokens, block_tokens, member_tokens};
ghost use Rattle.df_lang.specs.Separated.{each_after};

use crate::pieces::{Inside, Kind, Member, Which};
use crate::print_points::{put_element, put_numbers_after, put_points_after};
use crate::problem::Problem;
use df_group::{Elem, Shape, Subgroup};
use df_io::{LineBuf, put_number, put_text};
use df_subsets::Block;

/// Appends a keyword and a number.
pub(crate) fn put_number_statement(buf: &mut LineBuf, keyword: &[u8], number: u64)
    requires { array_vec_len buf.old + length (spaced (number_tokens keyword.now number)) ≤ 1024 }
    ensures { buf.new.items ≡ buf.old.items ++ spaced (number_tokens keyword.now number) }
{
    put_text(buf, keyword);
    buf.push(b' ');
    put_number(buf, number);
}

/// Appends a keyword and numbers.
pub(crate) fn put_numbers_statement(buf: &mut LineBuf, keyword: &[u8], numbers: &[u16])
    requires { array_vec_len buf.old + length (spaced (keyword.now ∷ map decimal numbers.now)) ≤ 1024 }
    ensures { buf.new.items ≡ buf.old.items ++ spaced (keyword.now ∷ map decimal numbers.now) }
{
    put_text(buf, keyword);
    put_numbers_after(buf, b' ', numbers);
}

/// Appends a keyword and sizes.
pub(crate) fn put_sizes_statement(buf: &mut LineBuf, keyword: &[u8], sizes: &[u8])
    requires { array_vec_len buf.old + length (spaced (keyword.now ∷ map decimal sizes.now)) ≤ 1024 }
    ensures { buf.new.items ≡ buf.old.items ++ spaced (keyword.now ∷ map decimal sizes.now) }
{
    put_text(buf, keyword);
    put_sizes_after(buf, sizes);
}

// Appends the sizes, each after a space.
fn put_sizes_after(buf: &mut LineBuf, sizes: &[u8])
    requires { array_vec_len buf.old + length (each_after 32 (map decimal sizes.now)) ≤ 1024 }
    ensures { buf.new.items ≡ buf.old.items ++ each_after 32 (map decimal sizes.now) }
{
    for size in sizes {
        buf.push(b' ');
        put_number(buf, u64::from(*size));
    }
}

/// Appends a keyword and the points of a block.
pub(crate) fn put_block_statement(
    buf: &mut LineBuf,
    keyword: &[u8],
    problem: &Problem,
    block: &Block,
)
    requires { array_vec_len buf.old + length (spaced (block_tokens problem.now.group keyword.now block.now)) ≤ 1024 }
    ensures { buf.new.items ≡ buf.old.items ++ spaced (block_tokens problem.now.group keyword.now block.now) }
{
    put_text(buf, keyword);
    put_points_after(buf, problem, block.points().as_slice());
}

/// Appends a name and the canonical generators of its subgroup.
pub(crate) fn put_subgroup(buf: &mut LineBuf, shape: &Shape, name: &[u8], subgroup: &Subgroup)
    requires subgroup { IsSubgroup shape.now subgroup.now }
    requires room { array_vec_len buf.old + length (spaced (subgroup_tokens shape.now (name.now, subgroup.now))) ≤ 1024 }
    ensures { buf.new.items ≡ buf.old.items ++ spaced (subgroup_tokens shape.now (name.now, subgroup.now)) }
{
    let _factors = shape.factors();
    let generators = subgroup.canonical(shape);
    put_subgroup_statement(buf, shape, name, generators.as_slice());
}

// Appends `subgroup`, a name and elements below the order.
fn put_subgroup_statement(buf: &mut LineBuf, shape: &Shape, name: &[u8], elements: &[Elem])
    requires elements { All (λ e. e < order_of shape.now) elements.now }
    requires room { array_vec_len buf.old + length (spaced (codes "subgroup" ∷ name.now ∷ map (element_text shape.now) elements.now)) ≤ 1024 }
    ensures { buf.new.items ≡ buf.old.items ++ spaced (codes "subgroup" ∷ name.now ∷ map (element_text shape.now) elements.now) }
{
    put_text(buf, b"subgroup ");
    put_text(buf, name);
    put_elements_after(buf, shape, elements);
}

// Appends elements below the order, each after a space.
fn put_elements_after(buf: &mut LineBuf, shape: &Shape, elements: &[Elem])
    requires elements { All (λ e. e < order_of shape.now) elements.now }
    requires room { array_vec_len buf.old + length (each_after 32 (map (element_text shape.now) elements.now)) ≤ 1024 }
    ensures { buf.new.items ≡ buf.old.items ++ each_after 32 (map (element_text shape.now) elements.now) }
{
    for e in elements {
        buf.push(b' ');
        put_element(buf, shape, *e);
    }
}

/// Appends a member of the family.
pub(crate) fn put_member(buf: &mut LineBuf, problem: &Problem, member: &Member)
    requires { array_vec_len buf.old + length (spaced (member_tokens problem.now.group member.now)) ≤ 1024 }
    ensures { buf.new.items ≡ buf.old.items ++ spaced (member_tokens problem.now.group member.now) }
{
    match member.kind {
        Kind::Base => put_block_statement(buf, b"base", problem, &member.block),
        Kind::Short => put_block_statement(buf, b"short", problem, &member.block),
    }
}

/// Appends the statement `shift`.
pub(crate) fn put_shift(buf: &mut LineBuf, problem: &Problem, which: Which)
    requires { array_vec_len buf.old + length (spaced (codes "shift" ∷ which_text problem.now.names which ∷ [])) ≤ 1024 }
    ensures { buf.new.items ≡ buf.old.items ++ spaced (codes "shift" ∷ which_text problem.now.names which ∷ []) }
{
    put_text(buf, b"shift ");
    put_which(buf, problem, which);
}

/// Appends the statement `inside`.
pub(crate) fn put_inside(buf: &mut LineBuf, problem: &Problem, inside: Inside)
    requires { array_vec_len buf.old + length (spaced (codes "inside" ∷ which_text problem.now.names inside.subgroup ∷ decimal inside.target ∷ [])) ≤ 1024 }
    ensures { buf.new.items ≡ buf.old.items ++ spaced (codes "inside" ∷ which_text problem.now.names inside.subgroup ∷ decimal inside.target ∷ []) }
{
    put_text(buf, b"inside ");
    put_which(buf, problem, inside.subgroup);
    buf.push(b' ');
    put_number(buf, u64::from(inside.target));
}

// Appends the subgroup name.
fn put_which(buf: &mut LineBuf, problem: &Problem, which: Which)
    requires { array_vec_len buf.old + length (which_text problem.now.names which) ≤ 1024 }
    ensures { buf.new.items ≡ buf.old.items ++ which_text problem.now.names which }
{
    match which {
        Which::All => put_text(buf, b"all"),
        Which::Trivial => put_text(buf, b"none"),
        Which::Named(place) => {
            if let Some((name, _)) = problem.names.get_index(place as usize) {
                put_text(buf, name.as_slice());
            }
        }
    }
}
