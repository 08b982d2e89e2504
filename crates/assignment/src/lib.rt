// The least assignment of tasks to carriers, with dual prices that prove it least.
#![tactic(auto)]

mod price;

ghost use Rattle.deck.specs.Calls.{AssignmentCall};
ghost use Rattle.deck.specs.Numbers.{assignment_numbers, tasks_told, rows_told, columns_told, sum_told};
ghost use Rattle.assignment.specs.Meant.{Meant};

use deck::{Assignment, Cause};

// The least assignment of a table of m by m entries, 65535 barred: the first by sum, then by list, with prices.
pub fn least_assignment(m: u8, table: &[u16]) -> Result<Option<Assignment>, Cause>
    ensures call { AssignmentCall m table.now (assignment_numbers result) (tasks_told result) (rows_told result) (columns_told result) }
    ensures meant { Meant m table.now (sum_told result) (tasks_told result) }
{
    let n = usize::from(m);
    if n < 1 || 12 < n || table.len() != n * n {
        return Err(Cause::BadCount);
    }
    let t = tables::filled(n, table);
    let Some(first) = candidates::first_priced(n, &t) else {
        return Ok(None);
    };
    Ok(Some(price::priced(n, &t, &first)))
}
