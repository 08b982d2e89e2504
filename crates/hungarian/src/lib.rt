// The Hungarian method over weights, twelve to a row: rows are matched one by one, along a tree of tight weights that the prices
// are raised to make. Rows are carriers and columns tasks, and each is reached by a number of its own type.
#![tactic(auto)]

ghost use Rattle.std.specs.Prelude.{◌≡◌, true, false, ℕ, suc, ◌+◌, ◌≤◌, ◌<◌, ◌^◌, length, set, replicate};
ghost use Rattle.meaning.specs.Meaning.{◌at◌};
ghost use Rattle.prices.specs.Square.{cell};
ghost use Rattle.hungarian.specs.Solving.{Within, paired, task_numbers, carrier_numbers, marks, nears, froms, column_at, marked, slack_of, Slacks, nearer_of, closer_of, Relaxed, Closest, in_tree, way_to, gain_of, row_gain, row_price, column_price, farthest, Light, Solved, Reaches};

use deck::{Carrier, Task};
use tables::entry;

// The weights of `count` rows and as many columns.
// Kept: `count` beside an array, since there is no heap, and a working copy has room for twelve.
#[derive(Clone, Copy)]
struct Problem<'a> {
    count: usize,
    weights: &'a [u64; 144],
    ghost few: { count ≤ 12 },
    ghost light: { Light count weights.now },
}

// The prices of the rows, and the negated prices of the columns, so that all are unsigned.
// Kept: two arrays, of which one is by row and one by column.
#[derive(Clone, Copy, Debug, PartialEq, Eq)]
pub struct Prices {
    pub rows: [u64; 12],
    pub columns: [u64; 12],
}

// The task of each carrier and the carrier of each task, where they have one.
// Kept: two arrays, of which one is by carrier and one by task.
#[derive(Clone, Copy, Debug, PartialEq, Eq)]
pub struct Pairs {
    pub tasks: [Option<Task>; 12],
    pub carriers: [Option<Carrier>; 12],
}

// Prices, and the pairs that are tight on them.
#[derive(Clone, Copy, Debug, PartialEq, Eq)]
pub struct Solution {
    pub prices: Prices,
    pub pairs: Pairs,
}

// The shortest way to a column so far: its length and its last row.
#[derive(Clone, Copy, Debug, PartialEq, Eq)]
struct Way {
    near: u64,
    from: Carrier,
}

// A column beside the tree of a row. The way of a marked column, one of the tree, is final.
// Kept: a flag beside the way, since a column has its way with a mark or without; two variants would have the same way in both.
#[derive(Clone, Copy, Debug, PartialEq, Eq)]
struct Column {
    way: Way,
    marked: bool,
}

// A column outside the tree, with the length of the shortest way to it.
#[derive(Clone, Copy, Debug, PartialEq, Eq)]
struct Edge {
    task: Task,
    near: u64,
}

// The tree of row `root`, whose newest column is at the length `total`.
#[derive(Clone, Copy)]
struct Tree<'a> {
    problem: Problem<'a>,
    root: Carrier,
    columns: [Column; 12],
    total: u64,
}

impl Problem<'_> {
    // How far the weight for a row and a column is above their prices.
    fn slack(&self, prices: &Prices, row: Carrier, column: Task) -> u64
        requires in_range { (row.0 < 12) × (column.0 < 12) }
        requires fits { (prices.now.rows at row.0 ≤ cell self.now.weights.now row.0 column.0 + prices.now.columns at column.0) × (cell self.now.weights.now row.0 column.0 + prices.now.columns at column.0 < farthest) }
        ensures { result ≡ slack_of self.now.weights.now prices.now.rows prices.now.columns row.0 column.0 }
    {
        entry(self.weights, row, column) + prices.columns[column.0] - prices.rows[row.0]
    }
}

impl Column {
    // The shortest way to the column, with that over a row, at the length total, and a slack.
    #[tactic(auto, unfolding(crate::specs::Solving::nearer_of))]
    fn nearer(self, total: u64, slack: u64, row: Carrier) -> Way
        requires { self.marked ≡ false → total ≤ self.way.near }
        ensures { result ≡ nearer_of self total slack row.0 }
    {
        if self.marked {
            return self.way;
        }
        if slack < self.way.near - total {
            Way {
                near: total + slack,
                from: row,
            }
        } else {
            self.way
        }
    }

    // What a price on the way to the column rises by, when the tree stops at the length total.
    fn gain(self, total: u64) -> u64
        requires { self.marked ≡ true → self.way.near ≤ total }
        ensures { result ≡ gain_of self.marked self.way.near total }
    {
        if self.marked {
            total - self.way.near
        } else {
            0
        }
    }
}

impl Edge {
    // The nearer of the edge and a column, where that is not marked.
    // Kept: the mark is what is known of the column, as in `closer_of`, and no choice of a caller's.
    #[tactic(auto, unfolding(crate::specs::Solving::closer_of))]
    fn closer(self, task: Task, marked: bool, near: u64) -> Edge
        ensures { result ≡ closer_of marked near task.0 self }
    {
        if marked {
            return self;
        }
        if near < self.near {
            Edge { task, near }
        } else {
            self
        }
    }
}

impl Pairs {
    // The carrier has the task, and the task the carrier.
    fn pair(&mut self, carrier: Carrier, task: Task)
        requires { (carrier.0 < 12) × (task.0 < 12) }
        ensures { self.new ≡ paired self.old carrier task }
    {
        self.tasks[carrier.0] = Some(task);
        self.carriers[task.0] = Some(carrier);
    }
}

impl<'a> Tree<'a> {
    // The row alone.
    fn new(problem: Problem<'a>, root: Carrier) -> Tree<'a>
        ensures { (result.problem ≡ problem.entry) × (result.root ≡ root) × (result.columns ≡ replicate 12 (column_at false farthest 0)) × (result.total ≡ 0) }
    {
        let column = Column {
            way: Way {
                near: u64::MAX,
                from: Carrier(0),
            },
            marked: false,
        };
        Tree {
            problem,
            root,
            columns: [column; 12],
            total: 0,
        }
    }

    // Looks at the ways over a row, which is at the length total, and hands back the nearest column outside the tree.
    fn relax(&mut self, prices: &Prices, row: Carrier) -> Edge
        requires prices { (row.0 < self.old.problem.count) × Slacks self.old.problem.count self.old.problem.weights.now prices.now.rows prices.now.columns }
        requires outside { (k : ℕ) → k < self.old.problem.count → marked (marks self.old.columns) k ≡ false → self.old.total ≤ nears self.old.columns at k }
        ensures kept { (self.new.problem ≡ self.old.problem) × (self.new.root ≡ self.old.root) × (self.new.total ≡ self.old.total) × (marks self.new.columns ≡ marks self.old.columns) }
        ensures relaxed { Relaxed self.old.problem.count self.old.problem.weights.now prices.now.rows prices.now.columns (marks self.old.columns) self.old.total row.0 (nears self.old.columns) (froms self.old.columns) (nears self.new.columns) (froms self.new.columns) }
        ensures closest { Closest (marks self.old.columns) (nears self.new.columns) self.old.problem.count result }
    {
        // Kept: farther than every way, so that the inner loop tests no Option. There is a column outside the tree.
        let mut nearest = Edge {
            task: Task(0),
            near: u64::MAX,
        };
        // Kept: an index, which names the column in the weights, the prices and the tree. The copies stay in registers. A marked column
        // goes through the same steps, which leave it as it is: to pass over it took a third more time in all.
        let problem = self.problem;
        let total = self.total;
        for j in 0..problem.count {
            let slack = problem.slack(prices, row, Task(j));
            let column = self.columns[j];
            let way = column.nearer(total, slack, row);
            self.columns[j].way = way;
            nearest = nearest.closer(Task(j), column.marked, way.near);
        }
        nearest
    }

    // What the price of a row rises by, when the tree stops there.
    // Kept: `Within` of the pairs, here and in what follows: the way back changes them, so that no tree can have them.
    fn row_gain(&self, pairs: &Pairs, row: Carrier) -> u64
        requires { (row.0 < 12) × Within self.now.problem.count pairs.now × (in_tree self.now.problem.count self.now.root.0 (task_numbers pairs.now.tasks) (marks self.now.columns) row.0 ≡ true → way_to self.now.root.0 (task_numbers pairs.now.tasks) (nears self.now.columns) row.0 ≤ self.now.total) }
        ensures { result ≡ row_gain self.now.problem.count self.now.root.0 (task_numbers pairs.now.tasks) (marks self.now.columns) (nears self.now.columns) self.now.total row.0 }
    {
        if row == self.root {
            return self.total;
        }
        match pairs.tasks[row.0] {
            None => 0,
            Some(task) => self.columns[task.0].gain(self.total),
        }
    }

    // The prices of the rows, when the tree stops there.
    fn raise_rows(&self, pairs: &Pairs, rows: &mut [u64; 12])
        requires within { Within self.now.problem.count pairs.now }
        requires fits { (x : ℕ) → x < self.now.problem.count → (in_tree self.now.problem.count self.now.root.0 (task_numbers pairs.now.tasks) (marks self.now.columns) x ≡ true → way_to self.now.root.0 (task_numbers pairs.now.tasks) (nears self.now.columns) x ≤ self.now.total) × (row_price self.now.problem.count self.now.root.0 rows.old (task_numbers pairs.now.tasks) (marks self.now.columns) (nears self.now.columns) self.now.total x < 2 ^ 64) }
        ensures { (x : ℕ) → x < self.now.problem.count → rows.new at x ≡ row_price self.now.problem.count self.now.root.0 rows.old (task_numbers pairs.now.tasks) (marks self.now.columns) (nears self.now.columns) self.now.total x }
    {
        for (x, price) in rows[..self.problem.count].iter_mut().enumerate() {
            *price += self.row_gain(pairs, Carrier(x));
        }
    }

    // The negated prices of the columns, when the tree stops there.
    fn raise_columns(&self, columns: &mut [u64; 12])
        requires { (y : ℕ) → y < self.now.problem.count → (marked (marks self.now.columns) y ≡ true → nears self.now.columns at y ≤ self.now.total) × (column_price columns.old (marks self.now.columns) (nears self.now.columns) self.now.total y < 2 ^ 64) }
        ensures { (y : ℕ) → y < self.now.problem.count → columns.new at y ≡ column_price columns.old (marks self.now.columns) (nears self.now.columns) self.now.total y }
    {
        for (y, price) in columns[..self.problem.count].iter_mut().enumerate() {
            *price += self.columns[y].gain(self.total);
        }
    }

    // Grows until the tree reaches a free column, which is handed back.
    // Kept: a loop without a range, since how often it turns only the weights say.
    fn grow(&mut self, pairs: &Pairs, prices: &mut Prices) -> Task
        requires row { (self.old.root.0 < self.old.problem.count) × (self.old.columns ≡ replicate 12 (column_at false farthest 0)) × (self.old.total ≡ 0) }
        requires within { Within self.old.problem.count pairs.now }
        requires solved { Solved self.old.problem.count self.old.problem.weights.now self.old.root.0 prices.old.rows prices.old.columns (task_numbers pairs.now.tasks) (carrier_numbers pairs.now.carriers) }
        ensures { Reaches self.old.problem.count self.old.problem.weights.now self.old.root.0 prices.new.rows prices.new.columns (froms self.new.columns) (task_numbers pairs.now.tasks) (carrier_numbers pairs.now.carriers) result.0 }
    {
        let mut row = self.root;
        loop {
            let edge = self.relax(prices, row);
            self.total = edge.near;
            let Some(next) = pairs.carriers[edge.task.0] else {
                self.raise_rows(pairs, &mut prices.rows);
                self.raise_columns(&mut prices.columns);
                return edge.task;
            };
            self.columns[edge.task.0].marked = true;
            row = next;
        }
    }
}

impl Solution {
    // A row matched too: on the way back from the free column to the row, each row takes the column that was reached from it.
    fn match_row(&mut self, problem: &Problem, row: Carrier)
        requires { (row.0 < problem.now.count) × Within problem.now.count self.old.pairs × Solved problem.now.count problem.now.weights.now row.0 self.old.prices.rows self.old.prices.columns (task_numbers self.old.pairs.tasks) (carrier_numbers self.old.pairs.carriers) }
        ensures { Within problem.now.count self.new.pairs × Solved problem.now.count problem.now.weights.now (suc row.0) self.new.prices.rows self.new.prices.columns (task_numbers self.new.pairs.tasks) (carrier_numbers self.new.pairs.carriers) }
    {
        let mut tree = Tree::new(*problem, row);
        let mut task = tree.grow(&self.pairs, &mut self.prices);
        // Kept: a count, since only the proof knows that each step goes to a column that joined the tree earlier.
        for _ in 0..12usize {
            let carrier = tree.columns[task.0].way.from;
            let next = self.pairs.tasks[carrier.0];
            self.pairs.pair(carrier, task);
            let Some(own) = next else {
                return;
            };
            task = own;
        }
    }
}

// Prices and pairs of least weight, all of m rows matched.
pub fn solve(m: usize, weights: &[u64; 144]) -> Solution
    requires { (m ≤ 12) × Light m weights.now }
    ensures { Solved m weights.now m result.prices.rows result.prices.columns (task_numbers result.pairs.tasks) (carrier_numbers result.pairs.carriers) }
{
    let problem = Problem { count: m, weights };
    let mut solution = Solution {
        prices: Prices {
            rows: [0; 12],
            columns: [0; 12],
        },
        pairs: Pairs {
            tasks: [None; 12],
            carriers: [None; 12],
        },
    };
    for r in 0..m {
        solution.match_row(&problem, Carrier(r));
    }
    solution
}
