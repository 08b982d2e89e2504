// Lower bounds on the steps that are left from each place with each label of a task: distances by breadth-first search. Nothing
// is proved of the search. Its distances are tested, and the bounds of a label that failed the test would be 0.
#![tactic(auto)]

ghost use Rattle.std.specs.Prelude.{◌≡◌, suc, ◌-◌, ◌<◌, ◌≤◌, length};
ghost use Rattle.deck.specs.Sheet.{read, count_of};
ghost use Rattle.bars.specs.Padded.{MaskOf};
ghost use Rattle.passes.specs.Ready.{Sized, GoalsOf};
ghost use Rattle.passes.specs.Listed.{listed};
ghost use Rattle.bounds.specs.Low.{Low};
ghost use Rattle.bounds.specs.Graded.{Given, Graded};

use bars::Layer;
use deck::Task;
use grid::Grid;
use passes::Goals;
use sheet::AcceptedSheet;

mod grid;
mod queue;

// A task of a sheet on the padded grid, with its goals there.
#[derive(Drop)]
struct Route<'a, 'b> {
    sheet: AcceptedSheet<'a>,
    task: Task,
    grid: Grid<'b>,
    goals: Goals,
    ghost given: { Given sheet.bytes.now task grid.mask.now },
    ghost sized: { Sized sheet.bytes.now grid.size.width grid.size.height },
    ghost goals_in_place: { GoalsOf sheet.bytes.now task (listed goals) },
    ghost has_goals: { (1 ≤ length (listed goals)) × (length (listed goals) ≤ 8) },
}

impl Route<'_, '_> {
    // The bounds once all goals are visited, and those with the last goal left: the steps to the last goal.
    fn last_two(&self, table: &mut [u8])
        requires { length table.old ≡ 9216 }
        ensures { Graded (read self.now.sheet.bytes.now) self.now.task (length (listed self.now.goals) - 1) table.new }
    {
        let goals = self.goals.all();
        let n = goals.len();
        let last = self.grid.layer(goals[n - 1], 0);
        self.grid.store(&last, 1024 * n, table);
        self.grid.store(&last, 1024 * (n - 1), table);
    }

    // The bounds with k goals visited: the steps to goal k, and the bound there with k + 1 visited. Kept: 1024 bytes to a label: the table is
    // lent, in fixed memory.
    fn level(&self, k: usize, table: &mut [u8])
        requires { (k < length (listed self.now.goals)) × Graded (read self.now.sheet.bytes.now) self.now.task (suc k) table.old }
        ensures { Graded (read self.now.sheet.bytes.now) self.now.task k table.new }
    {
        let base = table[1024 * (k + 1) + self.sheet.goal(self.task, k)];
        let layer = self.grid.layer(self.goals.all()[k], base);
        self.grid.store(&layer, 1024 * k, table);
    }
}

// The table of bounds: 1024 bytes for each label 0 to 8, by place.
pub fn bounds(sheet: AcceptedSheet, task: Task, mask: &Layer, table: &mut [u8])
    requires { (task.0 < count_of sheet.bytes.now) × MaskOf (read sheet.bytes.now) mask.now × (length table.old ≡ 9216) }
    ensures { Low (read sheet.entry.bytes.now) task table.new }
{
    let size = passes::size_of(&sheet);
    let goals = Goals::of(&sheet, task);
    let route = Route {
        sheet,
        task,
        grid: Grid { mask, size },
        goals,
    };
    route.last_two(table);
    for k in (0..route.goals.all().len() - 1).rev() {
        route.level(k, table);
    }
}
