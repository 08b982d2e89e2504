// One carrier's least path.
ghost use Rattle.deck.specs.Sheet.{carrier, task};
ghost use Rattle.planner.specs.Exports.{PathExport};

use deck::{Carrier, Task};
use numbers::found_numbers;

// The numbers: cause, 1 if there is a path, its finish. The path is written to the first H + 1 words of `out`, and only where there is one.
#[unsafe(no_mangle)]
pub extern "C" fn planner_least_path(
    s: &[u8],
    i: usize,
    j: usize,
    work: &mut [u32],
    out: &mut [u16],
    records: &[u16],
    numbers: &mut [u32; 3],
)
    ensures { PathExport s.now (carrier i) (task j) work.old out.old records.now numbers.new work.new out.new }
{
    let answer = path::least_path(s, Carrier(i), Task(j), work, out, records);
    *numbers = found_numbers(answer);
}
