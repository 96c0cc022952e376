// The verdict on a mixed family.
ghost use Rattle.std.specs.Prelude.{◌≡◌, ◌↔◌, true, length, IfOk};
ghost use Rattle.df_lang.specs.Balance.{IsBalanced};
ghost use Rattle.df_mixed.specs.PairOrbits.{shifts_of};
ghost use Rattle.df_mixed.specs.MixedTables.{mixed_development, mixed_table, AreFoundAsStated};
ghost use Rattle.df_mixed.specs.MixedVerdicts.{mixed_verdict, is_accepted, IsMixedVerdictOn};

use crate::OutOfMemory;
use crate::blocks::block_count;
use crate::pairs::stated_shifts;
use crate::table::{MixedTable, pair_table};
use df_lang::Problem;
use std::alloc::Global;

/// Whether each row of the table of pairs is found as often as is stated.
#[derive(Clone, Copy, Debug, PartialEq, Eq)]
pub enum MixedVerdict {
    /// Each row is; the development has this many blocks.
    Accepted {
        blocks: u64,
    },
    /// The place, from 0, of the first row that isn't, with how often it is found and how often that is stated.
    Refused {
        place: usize,
        found: u64,
        stated: u64,
    },
}

/// The verdict on the problem's family as developed by its stated shifts alone: accepted exactly where that development is balanced, which is
/// where each row of the table of pairs is found as often as is stated. The only error is out of memory.
pub fn verify_under(alloc: Global, problem: &Problem) -> Result<MixedVerdict, OutOfMemory>
    ensures balance { IfOk result (λ v. (is_accepted v ≡ true) ↔ IsBalanced problem.now (mixed_development problem.now)) }
    ensures rows { IfOk result (λ v. (is_accepted v ≡ true) ↔ AreFoundAsStated problem.now (shifts_of problem.now)) }
    ensures verdict { IfOk result (λ v. v ≡ mixed_verdict problem.now) }
    ensures row { IfOk result (IsMixedVerdictOn problem.now) }
{
    let table = pair_table(alloc, problem)?;
    Ok(table_verdict(problem, &table))
}

/// The same verdict, from the table of the problem's family.
pub fn table_verdict(problem: &Problem, table: &MixedTable) -> MixedVerdict
    requires { table.now ≡ mixed_table problem.now }
    ensures balance { (is_accepted result ≡ true) ↔ IsBalanced problem.now (mixed_development problem.now) }
    ensures rows { (is_accepted result ≡ true) ↔ AreFoundAsStated problem.now (shifts_of problem.now) }
    ensures verdict { result ≡ mixed_verdict problem.now }
    ensures row { IsMixedVerdictOn problem.now result }
{
    let blocks = block_count(problem, &stated_shifts(problem));
    verdict_by(problem, table, blocks)
}

// The verdict that the problem's table gives, where the development has this many blocks.
fn verdict_by(problem: &Problem, table: &MixedTable, blocks: u64) -> MixedVerdict
    requires table { table.now ≡ mixed_table problem.now }
    requires blocks { blocks ≡ length (mixed_development problem.now) }
    ensures { result ≡ mixed_verdict problem.now }
{
    match table.first_wrong() {
        None => MixedVerdict::Accepted { blocks },
        Some(place) => MixedVerdict::Refused {
            place,
            found: table.found(place),
            stated: table.stated(place),
        },
    }
}
