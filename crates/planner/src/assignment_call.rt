// The least assignment.
ghost use Rattle.planner.specs.Exports.{AssignmentExport};

use deck::Assignment;
use numbers::{NO_TASKS, assignment_numbers};

// The numbers: cause, 1 if there is an assignment, its sum. All words of the three lists are written.
#[unsafe(no_mangle)]
pub extern "C" fn planner_least_assignment(
    m: u8,
    table: &[u16],
    tasks: &mut [u8; 12],
    rows: &mut [i32; 12],
    columns: &mut [i32; 12],
    numbers: &mut [u32; 3],
)
    ensures { AssignmentExport m table.now tasks.new rows.new columns.new numbers.new }
{
    let answer = assignment::least_assignment(m, table);
    *numbers = assignment_numbers(answer);
    let Ok(Some(found)) = answer else {
        *tasks = NO_TASKS;
        *rows = [0; 12];
        *columns = [0; 12];
        return;
    };
    let Assignment {
        tasks: list,
        rows: row_prices,
        columns: column_prices,
        ..
    } = found;
    *tasks = list;
    *rows = row_prices;
    *columns = column_prices;
}
