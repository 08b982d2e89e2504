// One carrier's least path within the search's workspace, where the nodes stand too.
#![tactic(auto)]

ghost use Rattle.std.specs.Prelude.{◌≡◌, suc, ◌≤◌, length};
ghost use Rattle.deck.specs.Calls.{path_found, path_written, workspace_for};
ghost use Rattle.scratch.specs.Front.{Front};
ghost use Rattle.scratch.specs.Bounded.{Bounded, SoughtFor};
ghost use Rattle.by_passes.specs.Asked.{sheet_of, path_of, NotBefore};

use first_walk::CutOff;
use passes::{Course, Errand, Goals};

// The walk did not find the least path: none finishes before this time.
#[derive(Clone, Copy, Debug, PartialEq, Eq)]
pub struct NoneBefore(pub usize);

// How many times the walk is tried, each at a finish one later than the last.
const TRIES: usize = 2;

// The bytes of the lower bounds of one task.
const BOUNDS: usize = 9216;

// How many words of layers fit beside the links of all records in the spare words.
const FEW: usize = 4096;

// By the two passes. They work in the words past the nodes, or, where a small sheet leaves too few of them for the links of all
// records, in the spare words. Kept: the words past the nodes, found by the node limit: C lends one list of words for all.
fn by_passes(
    errand: &Errand,
    bound: usize,
    work: &mut [u32],
    spare: &mut [u32; 8192],
    out: &mut [u16],
) -> Option<usize>
    requires not_before { NotBefore errand.now bound }
    requires workspace { workspace_for (sheet_of errand.now) ≤ length work.old }
    requires room { suc (sheet_of errand.now).horizon ≤ length out.old }
    ensures answer { result ≡ path_found (sheet_of errand.now) errand.now.task (path_of errand.now) }
    ensures written { out.new ≡ path_written (path_of errand.now) out.old }
    ensures front { Front (sheet_of errand.now).limit work.old work.new }
{
    let sheet = errand.sheet;
    let size = (sheet.horizon() + 1) * sheet.area();
    if size < FEW {
        return by_passes::least(errand, bound, spare, out);
    }
    let from = 512 * sheet.limit() + 4096;
    by_passes::least(errand, bound, &mut work[from..], out)
}

// By the walk: at the first time at which the path may finish, and at the next ones. A child's path mostly finishes when its
// parent's does, or soon after. Kept: each task's bytes at a product, as `bounds` are lent, in fixed memory.
fn by_walk(
    errand: &Errand,
    bound: usize,
    links: &mut [u32; 8192],
    out: &mut [u16],
    bounds: &[u8],
) -> Result<usize, NoneBefore>
    requires not_before { NotBefore errand.now bound }
    requires room { suc (sheet_of errand.now).horizon ≤ length out.old }
    requires bounded { Bounded (sheet_of errand.now) bounds.now }
    ensures { SoughtFor errand.now out.old out.new result }
{
    let sheet = errand.sheet;
    let chains = errand.chains(links);
    let course = Course {
        sheet,
        mask: errand.mask,
        task: errand.task,
        size: passes::size_of(sheet),
        goals: Goals::of(sheet, errand.task),
        chains: &chains,
    };
    let at = BOUNDS * errand.task.0;
    let bounds = &bounds[at..at + BOUNDS];
    let horizon = sheet.horizon();
    let mut from = bound.max(bars::stay_from(
        errand.records,
        errand.carrier,
        sheet.last_goal(errand.task),
    ));
    for _ in 0..TRIES {
        if horizon < from {
            return Err(NoneBefore(from));
        }
        match first_walk::first_walk(&course, bounds, from, out) {
            Ok(true) => return Ok(from),
            Ok(false) => from += 1,
            Err(CutOff) => return Err(NoneBefore(from)),
        }
    }
    Err(NoneBefore(from))
}

// The least path, none finishing before `bound`: by the walk, and where that does not find it, by the passes. The nodes' words stay.
pub fn least(
    errand: &Errand,
    bound: usize,
    work: &mut [u32],
    spare: &mut [u32; 8192],
    out: &mut [u16],
    bounds: &[u8],
) -> Option<usize>
    requires not_before { NotBefore errand.now bound }
    requires workspace { workspace_for (sheet_of errand.now) ≤ length work.old }
    requires room { suc (sheet_of errand.now).horizon ≤ length out.old }
    requires bounded { Bounded (sheet_of errand.now) bounds.now }
    ensures answer { result ≡ path_found (sheet_of errand.now) errand.now.task (path_of errand.now) }
    ensures written { out.new ≡ path_written (path_of errand.now) out.old }
    ensures front { Front (sheet_of errand.now).limit work.old work.new }
{
    match by_walk(errand, bound, spare, out, bounds) {
        Ok(finish) => Some(finish),
        Err(NoneBefore(time)) => by_passes(errand, time, work, spare, out),
    }
}
