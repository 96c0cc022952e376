// Design lines, read.
//
// The points of a block are put into it one by one; each has to be at least the number after the
// last one, so that a token costs the same however long the line is.
ghost use Rattle.std.specs.Prelude.{◌≡◌, ◌∷◌, ◌++◌, ℕ, List, [], true, false, length, option_map};
ghost use Rattle.std.specs.Prelude.{IfOk, Err, None, Some};
ghost use Rattle.df_lists.specs.NumberSets.{has_member};
ghost use Rattle.df_dossier.specs.Designs.{design_of, block_with, is_separator};
ghost use Rattle.df_dossier.specs.DesignSteps.{drafted, with_point};
ghost use Rattle.df_dossier.specs.declared.designs.DesignRead.TheVariants.{Bad, OutOfMemory};

use crate::paths::past;
use df_io::Tokens;
use df_lang::{Problem, read_point};
use df_subsets::Block;
use std::alloc::{AllocFailed, Global};
use std::marker::Model;

/// Why a design isn't read.
#[derive(Clone, Copy, Debug, PartialEq, Eq)]
pub enum DesignRead {
    /// The line isn't a design line of the problem.
    Bad,
    /// There was no memory for the blocks.
    OutOfMemory,
}

impl<T: Drop> From<AllocFailed<T>> for DesignRead {
    ghost from_gives = { λ _ e. e ≡ OutOfMemory };

    fn from(_: AllocFailed<T>) -> Self {
        DesignRead::OutOfMemory
    }
}

/// The blocks of a design line of the problem, in their order. `Bad` exactly where the line isn't
/// one: `design`, and blocks with a `;` between each and the next, each of them points that
/// increase, as many as one of the sizes says.
pub fn read_design(alloc: Global, problem: &Problem, line: &[u8]) -> Result<Vec<Block>, DesignRead>
    ensures ok { IfOk result (λ blocks. design_of problem.now line.now ≡ Some blocks.items) }
    ensures bad { result ≡ Err Bad → design_of problem.now line.now ≡ None }
{
    let mut tokens = Tokens::new(line);
    if past(&mut tokens, b"design").is_none() {
        return Err(DesignRead::Bad);
    }
    let mut draft = Draft::new(alloc);
    let Some(first) = tokens.next_token() else {
        return Ok(draft.blocks);
    };
    draft.take(problem, first)?;
    while let Some(token) = tokens.next_token() {
        draft.take(problem, token)?;
    }
    draft.close(problem)?;
    Ok(draft.blocks)
}

// The whole blocks so far, and the points so far of the next one.
#[derive(Drop)]
struct Draft {
    blocks: Vec<Block>,
    points: Block,
    // The least number that the next point may have.
    least: u8,
}

impl Model for Draft {
    ghost use Rattle.std.specs.Prelude.{◌≡◌, true};
    ghost use Rattle.df_dossier.specs.Designs.{rises_from};
    ghost use Rattle.df_dossier.specs.DesignSteps.{Drafted, least_after};

    ghost Value = { Drafted };

    ghost view = { λ d. record { blocks = d.blocks.items; points = d.points } };

    ghost invariant = { λ d. (rises_from 0 d.points ≡ true) × (least_after 0 d.points ≡ d.least) };
}

impl Draft {
    // Nothing was read.
    fn new(alloc: Global) -> Draft
        ensures { result ≡ record { blocks = []; points = [] } }
    {
        Draft {
            blocks: Vec::new(alloc),
            points: Block::empty(),
            least: 0,
        }
    }

    // Takes one token more.
    fn take(&mut self, problem: &Problem, token: &[u8]) -> Result<(), DesignRead>
        ensures ok { IfOk result (λ _. (tokens : List (List ℕ))
            → drafted problem.now self.old (token.now ∷ tokens)
            ≡ drafted problem.now self.new tokens) }
        ensures bad { result ≡ Err Bad → (tokens : List (List ℕ))
            → drafted problem.now self.old (token.now ∷ tokens) ≡ None }
    {
        if token == b";".as_slice() {
            self.close(problem)
        } else {
            match self.add(problem, token) {
                Some(()) => Ok(()),
                None => Err(DesignRead::Bad),
            }
        }
    }

    // The points so far are a block: they join the blocks.
    fn close(&mut self, problem: &Problem) -> Result<(), DesignRead>
        ensures ok { IfOk result (λ _.
            (block_with problem.now self.old.points ≡ Some self.old.points)
            × (self.new ≡ record {
              blocks = self.old.blocks ++ self.old.points ∷ [];
              points = [];
            })) }
        ensures bad { result ≡ Err Bad → block_with problem.now self.old.points ≡ None }
    {
        if !has_size(problem, self.points.size()) {
            return Err(DesignRead::Bad);
        }
        self.blocks.push(self.points)?;
        self.points = Block::empty();
        self.least = 0;
        Ok(())
    }

    // The point of a token joins the points so far, which stay where it may not.
    fn add(&mut self, problem: &Problem, token: &[u8]) -> Option<()>
        ensures point { with_point problem.now self.old.points token.now
            ≡ option_map (λ _. self.new.points) result }
        ensures blocks { self.new.blocks ≡ self.old.blocks }
    {
        let p = read_point(problem, token)?;
        if p.0 < self.least {
            return None;
        }
        let _points = problem.points();
        self.points.insert(p);
        self.least = p.0 + 1;
        Some(())
    }
}

// The problem has blocks of this size.
fn has_size(problem: &Problem, size: u8) -> bool
    ensures { result ≡ has_member problem.now.sizes size }
{
    problem.sizes.iter().any(|k| *k == size)
}
