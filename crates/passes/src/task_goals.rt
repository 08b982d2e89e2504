// The goals of a task on the padded grid.
ghost use Rattle.std.specs.Prelude.{◌≡◌, ◌≤◌, length, reverse};
ghost use Rattle.passes.specs.Ready.{GoalsOf};

use crate::size_of;
use deck::Task;
use sheet::AcceptedSheet;

// At most eight padded places. Kept: an array with a count: no heap, and a task has one to eight goals.
#[derive(Clone, Copy, Debug, PartialEq, Eq)]
pub struct Goals {
    pub places: [usize; 8],
    pub count: usize,
    pub ghost few: { count ≤ 8 },
}

impl Goals {
    ghost use Rattle.passes.specs.Listed.{listed};

    // The goals of the task, in their order. Kept: an index, which names the goal in the sheet; `iter_mut` with `enumerate` would have the same
    // number.
    pub fn of(sheet: &AcceptedSheet, task: Task) -> Goals
        ensures { GoalsOf sheet.now.bytes.now task (listed result) }
    {
        let size = size_of(sheet);
        let count = sheet.goal_count(task);
        let mut places = [0usize; 8];
        for k in 0..count {
            places[k] = size.pad(sheet.goal(task, k));
        }
        Goals { places, count }
    }

    // The same in reverse.
    pub fn turned(&self) -> Goals
        ensures { listed result ≡ reverse (listed self.now) }
    {
        let mut places = self.places;
        places[..self.count].reverse();
        Goals {
            places,
            count: self.count,
        }
    }

    pub fn count(&self) -> usize
        ensures { result ≡ length (listed self.now) }
    {
        self.count
    }

    pub fn all(&self) -> &[usize]
        ensures { result.now ≡ listed self.now }
    {
        &self.places[..self.count]
    }
}
