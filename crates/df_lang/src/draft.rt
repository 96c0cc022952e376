// What the lines above a line have stated.
ghost use Rattle.std.specs.Prelude.{◌≡◌, ◌≤◌, ◌<◌, ◌+◌, [], length, map, None, unwrap_or, All};
ghost use Rattle.df_group.specs.Elements.{order_of};
ghost use Rattle.df_lang.specs.declared.problem.TheConstants.{NAMES_LIMIT};
ghost use Rattle.df_lang.specs.Problems.{Named};
ghost use Rattle.df_lang.specs.Stored.{named};

use crate::pieces::{Inside, Member, Name, Which};
use arrayvec::ArrayVec;
use df_group::{Shape, Subgroup};
use df_subsets::Block;
use indexmap::IndexMap;

/// The pieces of a problem that are stated so far. No version stands above the first line with tokens.
#[derive(Drop)]
pub(crate) struct Draft {
    pub(crate) version: Option<u8>,
    pub(crate) group: Option<Shape>,
    pub(crate) fixed: Option<u8>,
    pub(crate) names: IndexMap<Name, Subgroup>,
    pub(crate) shift: Option<Which>,
    pub(crate) mults: Option<ArrayVec<u16, 128>>,
    pub(crate) sizes: Option<ArrayVec<u8, 15>>,
    pub(crate) lambda: Option<u32>,
    pub(crate) inside: Option<Inside>,
    pub(crate) hole: Option<u32>,
    pub(crate) family: Vec<Member>,
    pub(crate) required: Vec<Block>,
    pub(crate) forbidden: Vec<Block>,
    ghost fixed_later: { group ≡ None → fixed ≡ None },
    ghost points: { order_of (unwrap_or group []) + unwrap_or fixed 0 ≤ 128 },
    ghost few_names: { length names.entries < NAMES_LIMIT },
    ghost short_names: { All (λ (n : Named). length n.0 ≤ 16) (map named names.entries) },
}
