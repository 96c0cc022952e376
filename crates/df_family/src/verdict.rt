// The verdict on a family.
ghost use Rattle.std.specs.Prelude.{◌≡◌, ◌↔◌, true, length, IfOk};
ghost use Rattle.df_lang.specs.Balance.{IsBalanced};
ghost use Rattle.df_family.specs.Developments.{develop};
ghost use Rattle.df_family.specs.Tables.{IsAsStated, table as table_of};
ghost use Rattle.df_family.specs.Verdicts.{verdict_on, is_accepted, IsVerdictOn};

use crate::OutOfMemory;
use crate::table::{Row, Table, counted_table};
use df_lang::Problem;
use std::alloc::Global;

/// Whether each row of the difference table is found as often as is stated.
#[derive(Clone, Copy, Debug, PartialEq, Eq)]
pub enum Verdict {
    /// Each row is; the development has this many blocks.
    Accepted { blocks: u64 },
    /// The first row that isn't, with how often it is found and how often that is stated.
    Refused { row: Row, found: u64, stated: u64 },
}

/// The verdict on the problem's family: accepted exactly where its development is balanced, which is where each row of the difference table is found as often as is stated.
/// The only error is out of memory.
pub fn verify(alloc: Global, problem: &Problem) -> Result<Verdict, OutOfMemory>
    ensures balance { IfOk result (λ v. (is_accepted v ≡ true) ↔ IsBalanced problem.now (develop problem.now)) }
    ensures rows { IfOk result (λ v. (is_accepted v ≡ true) ↔ IsAsStated problem.now) }
    ensures verdict { IfOk result (λ v. v ≡ verdict_on problem.now) }
    ensures row { IfOk result (IsVerdictOn problem.now) }
{
    let counted = counted_table(alloc, problem)?;
    Ok(verdict_by(problem, &counted.table, counted.blocks))
}

// The verdict that the problem's table gives, where the development has this many blocks.
fn verdict_by(problem: &Problem, table: &Table, blocks: u64) -> Verdict
    requires table { table.now ≡ table_of problem.now }
    requires blocks { blocks ≡ length (develop problem.now) }
    ensures { result ≡ verdict_on problem.now }
{
    match table.first_wrong() {
        None => Verdict::Accepted { blocks },
        Some(place) => Verdict::Refused {
            row: table.row(place),
            found: table.found(place),
            stated: table.stated(place),
        },
    }
}
