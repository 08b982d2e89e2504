// The trace: from the start, step by step to the least place from which the task is still finished in time, by the layers of
// the backward pass; then the carrier stays on its last goal.
#![tactic(auto)]

ghost use Rattle.std.specs.Prelude.{◌≡◌, suc, ◌+◌, ◌-◌, ◌<◌, ◌≤◌, length};
ghost use Rattle.deck.specs.Calls.{overwrite};
ghost use Rattle.kernel.specs.Layers.{first_of};
ghost use Rattle.kernel.specs.Near.{near};
ghost use Rattle.kernel.specs.Kernel.{onward, path_at, OnTime};
ghost use Rattle.bars.specs.Ways.{number_of, number_if};
ghost use Rattle.layers.specs.Fill.{Filled};
ghost use Rattle.passes.specs.Courses.{sheet_of, carrier_of, bars_of, LeastOn};
ghost use Rattle.trace.specs.Along.{Visited, view, way_on, leads_on, FirstWay, Sees};

use bars::Way;

mod kept_layers;

pub use kept_layers::Kept;

// As many goals as are visited once the carrier is on the padded place p, with k of them visited before. Kept: k beside the goals, since
// both it and the answer count from the first goal.
pub fn visit(goals: &[usize], k: usize, p: usize) -> usize
    requires { k ≤ length goals.now }
    ensures { Visited goals.now (length goals.now) p k result }
{
    match goals[k..].iter().position(|goal| *goal != p) {
        Some(passed) => k + passed,
        None => goals.len(),
    }
}

// The places from `from` to `to` - 1 are g. Kept: the whole list with two places, since the clause says what stands in all of it.
pub fn stay(out: &mut [u16], from: usize, to: usize, g: u16)
    requires { (from ≤ to) × (to ≤ length out.old) }
    ensures { Filled from to (λ _. g) out.old out.new }
{
    out[from..to].fill(g);
}

// A look around the place u with the padded number p, at time t with the label k: the layer of t + 1 is kept from the word `at` on.
#[derive(Clone, Copy)]
struct Look<'a> {
    kept: &'a Kept<'a>,
    t: usize,
    u: usize,
    p: usize,
    at: usize,
    k: usize,
    ghost sees: { Sees (view kept.now t u p at k) },
}

impl<'a> Look<'a> {
    // A step by the way leads to a free place, keeps the time and is not barred. Kept, here and in the functions that follow: the way is the
    // subject of the question, and switches between no two steps.
    fn way_on(&self, way: Way) -> bool
        ensures { result ≡ way_on (view self.now.kept.now self.now.t self.now.u self.now.p self.now.at self.now.k) (number_of way) }
    {
        let course = self.kept.course;
        let size = course.size;
        let q = way.from(size.row(), self.p);
        course.mask[q] != 0
            && course.goals.count()
                < self.k + layers::kept(self.kept.words, self.at, q - size.row())
            && course
                .chains
                .move_free(self.t, self.u, way.from(size.width, self.u))
    }

    // Such a step, and the place itself may be left by the way.
    fn leads_on(&self, way: Way) -> bool
        ensures { result ≡ leads_on (view self.now.kept.now self.now.t self.now.u self.now.p self.now.at self.now.k) (number_of way) }
    {
        way.opens(self.kept.course.mask[self.p]) && self.way_on(way)
    }

    // The first way that leads on, by whichever way the place may be left.
    fn first_way(&self) -> Option<Way>
        ensures { FirstWay (way_on (view self.now.kept.now self.now.t self.now.u self.now.p self.now.at self.now.k)) (number_if result) }
    {
        Way::ALL.iter().copied().find(|way| self.way_on(*way))
    }

    // The same from a lane, which may be left by its own way alone.
    fn first_from_lane(&self) -> Option<Way>
        ensures { FirstWay (leads_on (view self.now.kept.now self.now.t self.now.u self.now.p self.now.at self.now.k)) (number_if result) }
    {
        Way::ALL.iter().copied().find(|way| self.leads_on(*way))
    }

    // The first way that leads on and by which the place may be left. A place that is no lane may be left by every way.
    fn first(&self) -> Option<Way>
        ensures { FirstWay (leads_on (view self.now.kept.now self.now.t self.now.u self.now.p self.now.at self.now.k)) (number_if result) }
    {
        if self.kept.course.mask[self.p] == 255 {
            self.first_way()
        } else {
            self.first_from_lane()
        }
    }
}

impl<'a> Kept<'a> {
    // The next place after u at t, with the label k: the least that keeps the time.
    fn next_place(&self, t: usize, u: usize, k: usize) -> usize
        requires before { t < self.now.end }
        requires on_time { OnTime (sheet_of self.now.course.now) (carrier_of self.now.course.now) self.now.course.now.task (bars_of self.now.course.now) (self.now.end - t) t u k }
        ensures { result ≡ first_of (onward (sheet_of self.now.course.now) (carrier_of self.now.course.now) self.now.course.now.task (bars_of self.now.course.now) (self.now.end - (t + 1)) t u k) (near (sheet_of self.now.course.now) u) }
    {
        let size = self.course.size;
        let look = Look {
            kept: self,
            t,
            u,
            p: size.pad(u),
            at: (t + 1) * size.words(),
            k,
        };
        match look.first() {
            Some(way) => way.from(size.width, u),
            None => 0,
        }
    }

    // Writes the path that finishes at the end of the pass.
    pub fn trace(&self, out: &mut [u16])
        requires least { LeastOn self.now.course.now self.now.end }
        requires room { suc (sheet_of self.now.course.now).horizon ≤ length out.old }
        ensures { out.new ≡ overwrite (path_at (sheet_of self.now.course.now) (carrier_of self.now.course.now) self.now.course.now.task (bars_of self.now.course.now) ((sheet_of self.now.course.now).horizon - self.now.end) self.now.end) out.old }
    {
        let course = self.course;
        let size = course.size;
        let goals = course.goals.all();
        let mut u = course.sheet.start(course.chains.carrier);
        let mut k = visit(goals, 0, size.pad(u));
        out[0] = u as u16;
        for t in 0..self.end {
            u = self.next_place(t, u, k);
            k = visit(goals, k, size.pad(u));
            out[t + 1] = u as u16;
        }
        let last = course.sheet.last_goal(course.task) as u16;
        stay(out, self.end + 1, course.sheet.horizon() + 1, last);
    }
}
