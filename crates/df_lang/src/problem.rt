// A problem.
use crate::pieces::{Inside, Member, Name, Which};
use arrayvec::ArrayVec;
use df_group::{Shape, Subgroup};
use df_subsets::Block;
use indexmap::IndexMap;
use std::marker::Model;

/// The greatest target.
pub const MOST_TARGET: u64 = 2_000_000;

/// The most blocks of a family, and the most required and forbidden blocks together.
pub const MOST_BLOCKS: usize = 4_096;

/// There are fewer named subgroups than this, so that 32 bits number them.
pub const NAMES_LIMIT: usize = 4_294_967_296;

/// What a source states, with the rules that it keeps. Contracts see it as a record of numbers and lists.
#[derive(Drop)]
pub struct Problem {
    /// 1 or 2. In version 1 there is one size, and no block is required or forbidden.
    pub version: u8,
    /// The group.
    pub shape: Shape,
    /// The number of fixed points, at most 16. With the elements there are at most 128 points.
    pub fixed: u8,
    /// The named subgroups of the group, fewer than `NAMES_LIMIT`, in the order of their lines.
    pub names: IndexMap<Name, Subgroup>,
    /// The subgroup whose elements shift a design to itself.
    pub shift: Which,
    /// The multipliers: below the exponent of the group and prime to it, each once.
    pub mults: ArrayVec<u16, 128>,
    /// The sizes of the blocks: at least one, increasing, each from 2 to 16 and at most the number of points.
    pub sizes: ArrayVec<u8, 15>,
    /// The target of two points, at most `MOST_TARGET`, where `inside` and `hole` say nothing else.
    pub lambda: u32,
    /// The target of two elements of one coset of a subgroup, where it is stated.
    pub inside: Option<Inside>,
    /// The target of two fixed points, at most `MOST_TARGET`.
    pub hole: u32,
    /// The blocks to develop, at most `MOST_BLOCKS`, of points below the number of points and of the sizes.
    pub family: Vec<Member>,
    /// The blocks that a design has to have; with the forbidden ones at most `MOST_BLOCKS`, of points below the number of points and of the sizes.
    pub required: Vec<Block>,
    /// The blocks that a design may not have.
    pub forbidden: Vec<Block>,
}

impl Model for Problem {
    ghost use Rattle.std.specs.Prelude.{map};
    ghost use Rattle.df_lang.specs.Problems.{Stated};
    ghost use Rattle.df_lang.specs.Stored.{named};
    ghost use Rattle.df_lang.specs.Problems.{IsStated};

    ghost Value = { Stated };

    ghost view = { λ p. record {
      version = p.version;
      group = p.shape;
      fixed = p.fixed;
      names = map named p.names.entries;
      shift = p.shift;
      mults = p.mults.items;
      sizes = p.sizes.items;
      lambda = p.lambda;
      inside = p.inside;
      hole = p.hole;
      family = p.family.items;
      required = p.required.items;
      forbidden = p.forbidden.items;
    } };

    ghost invariant = { λ p. IsStated record {
      version = p.version;
      group = p.shape;
      fixed = p.fixed;
      names = map named p.names.entries;
      shift = p.shift;
      mults = p.mults.items;
      sizes = p.sizes.items;
      lambda = p.lambda;
      inside = p.inside;
      hole = p.hole;
      family = p.family.items;
      required = p.required.items;
      forbidden = p.forbidden.items;
    } };
}

impl Problem {
    ghost use Rattle.std.specs.Prelude.{◌≡◌, ◌≤◌};
    ghost use Rattle.df_group.specs.Subgroups.{IsSubgroup};
    ghost use Rattle.df_lang.specs.Problems.{point_count, IsSubgroupName};
    ghost use Rattle.df_lang.specs.Targets.{subgroup_at};

    /// The number of points, from 2 to 128: the elements of the group and the fixed points.
    pub fn points(&self) -> u8
        ensures points { result ≡ point_count self.now }
        ensures most { result ≤ 128 }
    {
        self.shape.order() + self.fixed
    }

    /// The subgroup that a subgroup name names. Condition: the number of a named one is below the number of names.
    pub fn subgroup(&self, which: Which) -> Subgroup
        requires { IsSubgroupName self.now.names which }
        ensures members { result ≡ subgroup_at self.now which }
        ensures subgroup { IsSubgroup self.now.group result }
    {
        match which {
            Which::All => Subgroup::whole(&self.shape),
            Which::Trivial => Subgroup::trivial(&self.shape),
            Which::Named(place) => match self.names.get_index(place as usize) {
                Some((_, subgroup)) => *subgroup,
                None => unreachable!(),
            },
        }
    }
}
