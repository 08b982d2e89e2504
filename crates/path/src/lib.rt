// One carrier's least path: the public call.
#![tactic(auto)]

ghost use Rattle.deck.specs.Calls.{PathCall};
ghost use Rattle.deck.specs.Numbers.{path_numbers};
ghost use Rattle.path.specs.Meant.{Meant};

use bars::CELLS;
use deck::{Carrier, Cause, Task};
use passes::Errand;
use sheet::AcceptedSheet;

// One carrier's least path under a list of records of five words: kind, carrier, u, v, t. A refused call writes nothing.
pub fn least_path(
    s: &[u8],
    i: Carrier,
    j: Task,
    work: &mut [u32],
    out: &mut [u16],
    records: &[u16],
) -> Result<Option<usize>, Cause>
    ensures call { PathCall s.now i j work.old out.old records.now (path_numbers result) work.new out.new }
    ensures meant { Meant s.now i j work.old out.old records.now result out.new }
{
    path_causes::check(s, i, j, work.len(), out.len(), records)?;
    let sheet = AcceptedSheet::new(s);
    let mut mask = [0u8; CELLS];
    mask::fill(&sheet, &mut mask);
    let errand = Errand {
        sheet: &sheet,
        mask: &mask,
        carrier: i,
        task: j,
        records,
    };
    Ok(by_passes::least(&errand, 0, work, out))
}
