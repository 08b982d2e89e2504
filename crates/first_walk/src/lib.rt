// The first path in order that finishes at a given time, by a depth-first walk: from each place the five places around it in
// order, those left out from which the lower bounds or the constraints say that the task is not finished in time. Places that
// failed are remembered. The walk is cut off after a number of places.
#![tactic(auto)]

ghost use Rattle.std.specs.Prelude.{◌≡◌, suc, ◌<◌, ◌≤◌, length};
ghost use Rattle.deck.specs.Sheet.{last_goal};
ghost use Rattle.bars.specs.Ways.{number_of};
ghost use Rattle.bounds.specs.Low.{Low};
ghost use Rattle.passes.specs.Courses.{sheet_of, carrier_of, bars_of};
ghost use Rattle.first_walk.specs.Walk.{Walked};

use bars::Way;
use passes::Course;
use spot::{Failed, Spot};

mod spot;

// How many places a walk may be on before it is cut off.
const MOST: usize = 4096;

// The walk was cut off: it has not shown whether there is a path.
#[derive(Clone, Copy, Debug, PartialEq, Eq)]
pub struct CutOff;

// How many places may still be tried, and those that failed.
#[derive(Drop)]
struct Tries {
    left: usize,
    failed: Failed,
}

// What a walk keeps to: the course, the lower bounds of its task, the time of the finish and the last goal.
#[derive(Drop)]
struct Walk<'a> {
    course: &'a Course<'a>,
    bounds: &'a [u8],
    end: usize,
    last: usize,
    ghost low: { Low (sheet_of course.now) course.now.task bounds.now },
    ghost long: { length bounds.now ≡ 9216 },
    ghost in_time: { end ≤ (sheet_of course.now).horizon },
    ghost ends: { last ≡ last_goal (sheet_of course.now) course.now.task },
}

impl Walk<'_> {
    ghost use Rattle.first_walk.specs.Steps.{On, Remembers, Seen, Dived};

    // The spot by the way, where a step to it is allowed and the task may still be finished in time. Kept: 1024 bytes to a label: the bounds
    // are lent, in fixed memory; and the way is the subject of the question.
    fn look(&self, at: Spot, way: Way, failed: &Failed) -> Option<Spot>
        requires on { On self.now at }
        requires remembers { Remembers self.now failed.now.codes }
        requires before { at.time < self.now.end }
        ensures { Seen self.now at (number_of way) result }
    {
        let mask = self.course.mask;
        let chains = self.course.chains;
        let padded = way.from(self.course.size.row(), at.padded);
        if mask[padded] == 0 {
            return None;
        }
        let place = way.from(self.course.size.width, at.place);
        let visited = trace::visit(self.course.goals.all(), at.visited, padded);
        let next = Spot::new(at.time + 1, place, padded, visited);
        if self.end < next.time + usize::from(self.bounds[1024 * visited + place]) {
            return None;
        }
        if failed.contains(next) {
            return None;
        }
        if chains.move_free(at.time, at.place, place)
            && chains.place_free(next.time, place)
            && way.opens(mask[at.padded])
        {
            Some(next)
        } else {
            None
        }
    }

    // The walk on from the spot: whether it comes to the finish. Then the places are written.
    fn dive(&self, at: Spot, tries: &mut Tries, out: &mut [u16]) -> Result<bool, CutOff>
        requires on { On self.now at }
        requires remembers { Remembers self.now tries.old.failed.codes }
        requires room { suc (sheet_of self.now.course.now).horizon ≤ length out.old }
        ensures dived { Dived self.now at out.old out.new result }
        ensures remembers { Remembers self.now tries.new.failed.codes }
    {
        if at.time == self.end {
            if at.place == self.last && at.visited == self.course.goals.count() {
                out[at.time] = at.place as u16;
                return Ok(true);
            }
            return Ok(false);
        }
        if tries.left == 0 {
            return Err(CutOff);
        }
        tries.left -= 1;
        for way in Way::ALL {
            if let Some(next) = self.look(at, way, &tries.failed) {
                if self.dive(next, tries, out)? {
                    out[at.time] = at.place as u16;
                    return Ok(true);
                }
            }
        }
        tries.failed.insert(at);
        Ok(false)
    }
}

// The first path that finishes at `end`, where the carrier may stay on its last goal from then on: whether there is one. `bounds` are
// the lower bounds of the task. Nothing is written unless it is found.
pub fn first_walk(
    course: &Course,
    bounds: &[u8],
    end: usize,
    out: &mut [u16],
) -> Result<bool, CutOff>
    requires low { Low (sheet_of course.now) course.now.task bounds.now }
    requires long { length bounds.now ≡ 9216 }
    requires in_time { end ≤ (sheet_of course.now).horizon }
    requires room { suc (sheet_of course.now).horizon ≤ length out.old }
    ensures { Walked (sheet_of course.now) (carrier_of course.now) course.now.task (bars_of course.now) end out.old out.new result }
{
    let chains = course.chains;
    let place = course.sheet.start(chains.carrier);
    if !chains.place_free(0, place) {
        return Ok(false);
    }
    let padded = course.size.pad(place);
    let visited = trace::visit(course.goals.all(), 0, padded);
    let last = course.sheet.last_goal(course.task);
    let walk = Walk {
        course,
        bounds,
        end,
        last,
    };
    let mut tries = Tries {
        left: MOST,
        failed: Failed::new(),
    };
    let found = walk.dive(Spot::new(0, place, padded, visited), &mut tries, out)?;
    if found {
        trace::stay(out, end + 1, course.sheet.horizon() + 1, last as u16);
    }
    Ok(found)
}
