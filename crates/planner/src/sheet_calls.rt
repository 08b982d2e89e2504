// What a sheet is refused for, the workspace that it asks for, and where a task's goals stand in it.
ghost use Rattle.std.specs.Prelude.{◌≡◌};
ghost use Rattle.deck.specs.Sheet.{read, sheet_cause, task};
ghost use Rattle.deck.specs.Calls.{goals_call};
ghost use Rattle.deck.specs.Numbers.{cause_number};
ghost use Rattle.planner.specs.Exports.{workspace_wanted, stretch_numbers};

use numbers::number;

// The first cause that lies in the sheet itself, 1 to 7, and 0 for an accepted sheet. A sheet of no bytes, the dark house, is one.
// Kept: the C interface hands a cause back as a number.
#[unsafe(no_mangle)]
pub extern "C" fn planner_cause(s: &[u8]) -> u32
    ensures { result ≡ cause_number (sheet_cause s.now) }
{
    match sheet::check(s) {
        Ok(()) => 0,
        Err(cause) => number(cause),
    }
}

// How many words of 32 bits of workspace an accepted sheet asks for, 0 for any other. A sheet of no bytes asks for none: whether a sheet
// is refused is what planner_cause says.
#[unsafe(no_mangle)]
pub extern "C" fn planner_workspace(s: &[u8]) -> usize
    ensures { result ≡ workspace_wanted (sheet_cause s.now) (read s.now) }
{
    match sheet::check(s) {
        Ok(()) => sheet::workspace(s),
        Err(_) => 0,
    }
}

// The offset and the length in bytes of the task j's goals; on any cause, 1 to 8, both are 0.
#[unsafe(no_mangle)]
pub extern "C" fn planner_task_goals(s: &[u8], j: usize, numbers: &mut [usize; 2])
    ensures { numbers.new ≡ stretch_numbers (goals_call s.now (task j)) }
{
    *numbers = match sheet::check(s) {
        Ok(()) if j < sheet::count(s) => {
            let goals = sheet_parts::pair_at(s, sheet_parts::TASKS + j);
            [goals.offset, goals.size]
        }
        _ => [0, 0],
    };
}
