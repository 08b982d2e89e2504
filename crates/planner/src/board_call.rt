// The gate board.
ghost use Rattle.planner.specs.Exports.{BoardExport};

use board_lines::line_numbers;
use numbers::search_numbers;

// The numbers: as those of the search. The lines: twelve, each of four numbers: last goal, carrier, task, finish; of a plan the first m,
// the rest zeros. Workspace and output are as the search leaves them.
#[unsafe(no_mangle)]
pub extern "C" fn planner_gate_board(
    s: &[u8],
    work: &mut [u32],
    out: &mut [u16],
    numbers: &mut [u32; 17],
    lines: &mut [u32; 48],
)
    ensures { BoardExport s.now work.old out.old numbers.new lines.new work.new out.new }
{
    let board = board::gate_board(s, work, out);
    *numbers = search_numbers(board.answer);
    *lines = line_numbers(board.lines);
}
