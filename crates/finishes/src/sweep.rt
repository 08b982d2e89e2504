// The pass of one task.
ghost use Rattle.std.specs.Prelude.{◌≡◌, ◌≢◌, ℕ, ◌<◌, true, None, length, get_or};
ghost use Rattle.deck.specs.Sheet.{read, count_of};
ghost use Rattle.finishes.specs.Entries.{starts_in, steps_in, Starts, Marks, Unknown, Whole};
ghost use Rattle.finishes.specs.Serves.{Serves};

use crate::entry::Entry;
use bars::{CELLS, Layer};
use deck::Task;
use layers::Pass;
use sheet::AcceptedSheet;

// Each entry has its number of steps.
fn all_known(entries: &[Entry]) -> bool
    ensures { result ≡ true → (i : ℕ) → i < length entries.now → get_or (steps_in entries.now) i None ≢ None }
{
    entries.iter().all(|entry| entry.is_known())
}

// A task with the pass backward from its last goal, without constraints.
#[derive(Drop)]
pub struct Sweep<'a> {
    pub sheet: &'a AcceptedSheet<'a>,
    pub task: Task,
    pub pass: Pass<'a>,
    pub ghost serves: { Serves sheet.now.bytes.now task pass },
}

impl Sweep<'_> {
    // Marks the layer of k steps.
    fn mark(&self, k: usize, layer: &Layer, entries: &mut [Entry])
        requires { k < 256 }
        ensures starts { starts_in entries.new ≡ starts_in entries.old }
        ensures steps { Marks layer.now (length self.now.pass.goals.now) k (starts_in entries.old) (steps_in entries.old) (steps_in entries.new) }
    {
        for entry in entries.iter_mut() {
            entry.mark(layer[entry.start], self.pass.goals.len(), k);
        }
    }

    // Enters the column of the task: an entry for each carrier of the sheet.
    pub fn enter(&self, entries: &mut [Entry])
        requires long { length entries.old ≡ count_of self.now.sheet.now.bytes.now }
        requires starts { Starts self.now.sheet.now.bytes.now (starts_in entries.old) }
        requires unknown { Unknown (steps_in entries.old) }
        ensures { Whole (read self.now.sheet.now.bytes.now) self.now.task (steps_in entries.new) }
    {
        let horizon = self.sheet.horizon();
        let goal = self.pass.size.pad(self.sheet.last_goal(self.task));
        let mut a = layers::seed(self.pass.chains, self.pass.size, self.pass.goals, 0, goal);
        let mut b = [0u8; CELLS];
        let (mut src, mut dst) = (&mut a, &mut b);
        for k in 0..horizon {
            self.mark(k, src, entries);
            if all_known(entries) {
                return;
            }
            self.pass.step(0, 0, src, dst);
            (src, dst) = (dst, src);
        }
        self.mark(horizon, src, entries);
    }
}
