// The two passes over layers of labels for one carrier and one task: forward for the least finish, backward for what can still
// be finished in time from each place, with the layers kept in the workspace.
#![tactic(auto)]

ghost use Rattle.std.specs.Prelude.{◌≡◌, ◌&&◌, ◌+◌, ◌*◌, ◌<◌, ◌≤◌, length, get_or, leb, ltb, true, false};
ghost use Rattle.deck.specs.Calls.{constraints_of};
ghost use Rattle.bars.specs.Padded.{row_of};
ghost use Rattle.bars.specs.Bars.{count_in};
ghost use Rattle.bars.specs.Ways.{is_back};
ghost use Rattle.layers.specs.Packed.{Kept, words_for};
ghost use Rattle.layers.specs.Step.{Stepped};
ghost use Rattle.passes.specs.Ready.{Ready, Sized, GoalsOf};
ghost use Rattle.passes.specs.Listed.{listed};

use bars::{CELLS, Chains, Direction, Layer, Size, Ways};
use deck::{Carrier, Task};
use layers::Pass;
use sheet::AcceptedSheet;

mod task_goals;

pub use task_goals::Goals;

// The size of the sheet's grid.
pub fn size_of(sheet: &AcceptedSheet) -> Size
    ensures { Sized sheet.now.bytes.now result.width result.height }
{
    Size {
        width: sheet.width(),
        height: sheet.height(),
    }
}

// What a carrier's path is asked for by: an accepted sheet and its mask, the carrier and its task, and records of constraints.
#[derive(Clone, Copy)]
pub struct Errand<'a> {
    pub sheet: &'a AcceptedSheet<'a>,
    pub mask: &'a Layer,
    pub carrier: Carrier,
    pub task: Task,
    pub records: &'a [u16],
    pub ghost ready: { Ready sheet.now.bytes.now carrier task mask.now records.now },
}

impl Errand<'_> {
    // The chains of the carrier's constraints, their links in these words.
    pub fn chains<'b>(&'b self, links: &'b mut [u32]) -> Chains<'b>
        requires { count_in self.now.records.now ≤ length links.old }
        ensures { (result.carrier ≡ self.now.carrier) × (result.records.now ≡ self.now.records.now) }
    {
        Chains::new(self.records, self.carrier, links)
    }
}

// What a carrier's path is sought by: an accepted sheet and its mask, the task and its goals, and the carrier's constraints.
#[derive(Drop)]
pub struct Course<'a> {
    pub sheet: &'a AcceptedSheet<'a>,
    pub mask: &'a Layer,
    pub task: Task,
    pub size: Size,
    pub goals: Goals,
    pub chains: &'a Chains<'a>,
    pub ghost ready: { Ready sheet.now.bytes.now chains.now.carrier task mask.now chains.now.records.now },
    pub ghost sized: { Sized sheet.now.bytes.now size.width size.height },
    pub ghost goals_at: { GoalsOf sheet.now.bytes.now task (listed goals) },
}

// What a forward pass looks for: a label above the number of goals on the padded last goal, not before the time `from`.
#[derive(Clone, Copy)]
struct Target {
    place: usize,
    goals: usize,
    from: usize,
}

impl Target {
    // It is met in the layer of t.
    fn met(self, layer: &Layer, t: usize) -> bool
        requires { self.place < 1156 }
        ensures { result ≡ (leb self.from t && ltb self.goals (get_or layer.now self.place 0)) }
    {
        self.from <= t && self.goals < usize::from(layer[self.place])
    }
}

impl<'a> Course<'a> {
    ghost use Rattle.passes.specs.Courses.{sheet_of, EarlyOn, LeastIs, can_finish, Roomy, BackedOn, DoorsOn};

    // The forward pass over the ways with these doors.
    fn forward_by(&self, doors: Option<&Ways>, from: usize) -> Option<usize>
        requires early { EarlyOn self.now from }
        requires passable { DoorsOn self.now false doors }
        ensures { LeastIs self.now result }
    {
        let size = self.size;
        let goals = self.goals.all();
        let pass = Pass {
            size,
            chains: self.chains,
            mask: self.mask,
            doors,
            direction: Direction::Forward,
            goals,
        };
        let target = Target {
            place: size.pad(self.sheet.last_goal(self.task)),
            goals: goals.len(),
            from,
        };
        let horizon = self.sheet.horizon();
        let mut a = layers::seed(
            self.chains,
            size,
            goals,
            0,
            size.pad(self.sheet.start(self.chains.carrier)),
        );
        let mut b = [0u8; CELLS];
        let (mut src, mut dst) = (&mut a, &mut b);
        for t in 0..horizon {
            if target.met(src, t) {
                return Some(t);
            }
            pass.step(t, t + 1, src, dst);
            (src, dst) = (dst, src);
        }
        if target.met(src, horizon) {
            Some(horizon)
        } else {
            None
        }
    }

    // The least time at which the task can be finished within the horizon; it is not before `from`.
    pub fn forward(&self, from: usize) -> Option<usize>
        requires { EarlyOn self.now from }
        ensures { LeastIs self.now result }
    {
        let size = self.size;
        if layers::is_plain(self.mask, size) {
            return self.forward_by(None, from);
        }
        let mut doors = [0u8; 5780];
        layers::fill_doors(self.mask, size, Direction::Forward, &mut doors);
        self.forward_by(Some(&doors), from)
    }

    // The backward pass over the ways with these doors. Kept: true or false beside the words, which are written either way.
    fn backward_by(&self, doors: Option<&Ways>, end: usize, words: &mut [u32]) -> bool
        requires in_time { end ≤ (sheet_of self.now).horizon }
        requires room { Roomy self.now words.old }
        requires passable { DoorsOn self.now true doors }
        ensures finished { result ≡ can_finish self.now end }
        ensures backed { BackedOn self.now end 0 words.new }
    {
        let size = self.size;
        let turned = self.goals.turned();
        let goals = turned.all();
        let pass = Pass {
            size,
            chains: self.chains,
            mask: self.mask,
            doors,
            direction: Direction::Backward,
            goals,
        };
        let n = goals.len();
        let start = size.pad(self.sheet.start(self.chains.carrier));
        let mut a = layers::seed(
            self.chains,
            size,
            goals,
            end,
            size.pad(self.sheet.last_goal(self.task)),
        );
        layers::keep(&a, size, words, end);
        let mut b = [0u8; CELLS];
        let (mut src, mut dst) = (&mut a, &mut b);
        for t in (0..end).rev() {
            pass.step(t, t, src, dst);
            layers::keep(dst, size, words, t);
            (src, dst) = (dst, src);
        }
        n < usize::from(src[start])
    }

    // The backward pass from `end`: the layers of all times up to it are kept, and the answer is whether the task can be finished
    // then. Kept: true or false, as in `backward_by`.
    pub fn backward(&self, end: usize, words: &mut [u32]) -> bool
        requires in_time { end ≤ (sheet_of self.now).horizon }
        requires room { Roomy self.now words.old }
        ensures finished { result ≡ can_finish self.now end }
        ensures backed { BackedOn self.now end 0 words.new }
    {
        let size = self.size;
        if layers::is_plain(self.mask, size) {
            return self.backward_by(None, end, words);
        }
        let mut doors = [0u8; 5780];
        layers::fill_doors(self.mask, size, Direction::Backward, &mut doors);
        self.backward_by(Some(&doors), end, words)
    }
}
