// The search for a plan of least flowtime.
ghost use Rattle.planner.specs.Exports.{SearchExport};

use numbers::search_numbers;

// The numbers: cause, kind (0 plan, 1 none, 2 spent, 3 refused), flowtime, nodes made, bound, and the task list of 12. The paths are
// written to the first m × (H + 1) words of `out`, and only for a plan.
// Kept: the form of `planner_check_plan`: the C interface has a function for each call.
#[unsafe(no_mangle)]
pub extern "C" fn planner_search(
    s: &[u8],
    work: &mut [u32],
    out: &mut [u16],
    numbers: &mut [u32; 17],
)
    ensures { SearchExport s.now work.old out.old numbers.new work.new out.new }
{
    let answer = search::search(s, work, out);
    *numbers = search_numbers(answer);
}
