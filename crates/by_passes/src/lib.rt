// One carrier's least path by the two passes: an errand and a bound on the finish are handed in.
#![tactic(auto)]

ghost use Rattle.std.specs.Prelude.{◌≡◌, suc, ◌≤◌, length};
ghost use Rattle.deck.specs.Calls.{path_found, path_written};
ghost use Rattle.passes.specs.Ready.{room_for};
ghost use Rattle.passes.specs.Courses.{EarlyOn, Roomy};
ghost use Rattle.by_passes.specs.Asked.{sheet_of, path_of, NotBefore};
ghost use Rattle.by_passes.specs.Finished.{Finished};

use passes::{Course, Errand, Goals};
use trace::Kept;

// The least finish within the horizon, not before `from`; the layers of the backward pass from it are kept. Where a bound is known, the
// backward pass from it is tried first: a child's path mostly finishes when its parent's does.
fn finish(course: &Course, bound: usize, from: usize, words: &mut [u32]) -> Option<usize>
    requires early { EarlyOn course.now from }
    requires room { Roomy course.now words.old }
    ensures { Finished course.now words.new result }
{
    if course.sheet.horizon() < from {
        return None;
    }
    if 0 < bound && course.backward(from, words) {
        return Some(from);
    }
    let first = course.forward(from)?;
    course.backward(first, words);
    Some(first)
}

// The finish of the least path, where there is one, none finishing before `bound`; it is written only then.
// Kept: `NotBefore`, the room of the output and what is written, here and in `scratch`: they speak of one call's bound and output, which no
// errand has.
pub fn least(errand: &Errand, bound: usize, work: &mut [u32], out: &mut [u16]) -> Option<usize>
    requires not_before { NotBefore errand.now bound }
    requires words { room_for errand.now.sheet.now.bytes.now errand.now.records.now ≤ length work.old }
    requires room { suc (sheet_of errand.now).horizon ≤ length out.old }
    ensures answer { result ≡ path_found (sheet_of errand.now) errand.now.task (path_of errand.now) }
    ensures written { out.new ≡ path_written (path_of errand.now) out.old }
{
    let sheet = errand.sheet;
    let (links, words) = work.split_at_mut(errand.records.len() / 5);
    let chains = errand.chains(links);
    let course = Course {
        sheet,
        mask: errand.mask,
        task: errand.task,
        size: passes::size_of(sheet),
        goals: Goals::of(sheet, errand.task),
        chains: &chains,
    };
    let from = bound.max(bars::stay_from(
        errand.records,
        errand.carrier,
        sheet.last_goal(errand.task),
    ));
    let end = finish(&course, bound, from, words)?;
    let kept = Kept {
        course: &course,
        words,
        end,
    };
    kept.trace(out);
    Some(end)
}
