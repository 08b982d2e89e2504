// The search for a plan of least flowtime, from sheet to answer: the call.
#![tactic(auto)]

ghost use Rattle.std.specs.Prelude.{◌≡◌};
ghost use Rattle.deck.specs.Causes.{answer_unless};
ghost use Rattle.deck.specs.Sheet.{read};
ghost use Rattle.deck.specs.Calls.{search_cause, SearchCall};
ghost use Rattle.deck.specs.Numbers.{search_numbers};
ghost use Rattle.optimal.specs.Demand.{RightCall};

use deck::{Cause, SearchAnswer};

// The first cause that holds, for a workspace and an output of so many words.
fn check(s: &[u8], work: usize, out: usize) -> Result<(), Cause>
    ensures { result ≡ answer_unless (search_cause s.now work out) tt }
{
    sheet::check(s)?;
    let room = sheet::workspace(s);
    let words = sheet::count(s) * (sheet::horizon(s) + 1);
    if work < room {
        return Err(Cause::ShortWorkspace);
    }
    if out < words {
        return Err(Cause::WrongLength);
    }
    Ok(())
}

// THE CALL: for any sheet, workspace and output. A refused call changes no lent word, nor does that of a sheet of no bytes.
pub fn search(s: &[u8], work: &mut [u32], out: &mut [u16]) -> Result<SearchAnswer, Cause>
    ensures call { SearchCall s.now work.old out.old (search_numbers result) work.new out.new }
    ensures right { RightCall (read s.now) result out.new }
{
    check(s, work.len(), out.len())?;
    if s.is_empty() {
        // Kept: 255 is document 01's number of an entry that has no task.
        return Ok(SearchAnswer::Plan {
            tasks: [255; 12],
            flowtime: 0,
            nodes: 0,
            bound: 0,
        });
    }
    Ok(planning::accepted(s, work, out))
}
