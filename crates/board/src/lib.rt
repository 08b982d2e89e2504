// The gate board: the search's answer, and for a plan the tasks in the order in which their cars are at the gates. It rests on what the
// search promises and on nothing else of it.
#![tactic(auto)]

ghost use Rattle.std.specs.Prelude.{◌≡◌, length};
ghost use Rattle.deck.specs.Sheet.{read};
ghost use Rattle.deck.specs.Numbers.{search_numbers};
ghost use Rattle.optimal.specs.Demand.{RightCall};
ghost use Rattle.board_lines.specs.Board.{lines_for};
ghost use Rattle.board_lines.specs.Stands.{BoardStands};
ghost use Rattle.board.specs.Call.{BoardCall, Written};

use board_lines::Line;
use deck::{Cause, SearchAnswer};

// What the call answers: of a plan one line for each task, the rest zeros.
#[derive(Clone, Copy, Debug, PartialEq, Eq)]
pub struct Board {
    pub answer: Result<SearchAnswer, Cause>,
    pub lines: [Line; 12],
}

// The lines of an answer to the sheet, `out` being the words of its output.
fn lines_of(s: &[u8], answer: Result<SearchAnswer, Cause>, out: &[u16]) -> [Line; 12]
    requires { Written s.now (length out.now) answer }
    ensures { result ≡ lines_for (read s.now) answer out.now }
{
    match answer {
        Ok(SearchAnswer::Plan { tasks, .. }) => board_lines::plan_lines(s, &tasks, out),
        Ok(SearchAnswer::NoPlan { .. } | SearchAnswer::Spent { .. }) | Err(_) => {
            board_lines::no_lines()
        }
    }
}

// THE CALL: for any sheet, workspace and output, which are afterwards as the search leaves them.
pub fn gate_board(s: &[u8], work: &mut [u32], out: &mut [u16]) -> Board
    ensures call { BoardCall s.now work.old out.old (search_numbers result.answer) result.lines work.new out.new }
    ensures right { RightCall (read s.now) result.answer out.new }
    ensures stands { BoardStands (read s.now) result.answer out.new result.lines }
{
    let answer = search::search(s, work, out);
    let lines = lines_of(s, answer, out);
    Board { answer, lines }
}
