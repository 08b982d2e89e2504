// The plan check.
ghost use Rattle.std.specs.Prelude.{◌≡◌};
ghost use Rattle.deck.specs.Calls.{check_call};
ghost use Rattle.deck.specs.Numbers.{found_numbers};

use numbers::found_numbers;

// The numbers: cause, 1 for a plan, its flowtime.
// Kept: the form of `planner_search`: the C interface has a function for each call.
#[unsafe(no_mangle)]
pub extern "C" fn planner_check_plan(
    s: &[u8],
    tasks: &[u8; 12],
    paths: &[u16],
    numbers: &mut [u32; 3],
)
    ensures { numbers.new ≡ found_numbers (check_call s.now tasks.now paths.now) }
{
    let answer = plan_check::check_plan(s, *tasks, paths);
    *numbers = found_numbers(answer);
}
