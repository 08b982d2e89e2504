// The first assignment in order of a table or of a part.
#![tactic(auto)]

ghost use Rattle.std.specs.Prelude.{◌≡◌, ℕ, ◌≤◌, ◌<◌, length, take};
ghost use Rattle.std.specs.Option.{option_map};
ghost use Rattle.deck.specs.Assignments.{least_assignment};
ghost use Rattle.deck.specs.Calls.{task_list};
ghost use Rattle.meaning.specs.Meaning.{◌at◌};
ghost use Rattle.prices.specs.Matching.{cost};
ghost use Rattle.prices.specs.Weights.{weigh as weigh_of};
ghost use Rattle.prices.specs.Square.{cell, copied};
ghost use Rattle.hungarian.specs.Solving.{task_numbers};
ghost use Rattle.partition.specs.Parts.{candidate, slot_part};
ghost use Rattle.tables.specs.Copies.{part_of};
ghost use Rattle.candidates.specs.Candidates.{candidate_for};

use deck::{Carrier, Task};
use hungarian::Pairs;
use tables::{HEAVY, Part, entry, merged_weights, task_of, weigh};

// A first assignment, with its sum. The order is that of assignments: by sum, then by list.
#[derive(Clone, Copy, Debug, PartialEq, Eq, PartialOrd, Ord)]
pub struct Candidate {
    pub sum: u32,
    pub tasks: [u8; 12],
}

// The same with the negated prices of the columns, by merged weights.
#[derive(Clone, Copy, Debug, PartialEq, Eq)]
pub struct PricedCandidate {
    pub candidate: Candidate,
    pub columns: [u64; 12],
}

// The task of a carrier that has one.
fn own_task(pairs: &Pairs, carrier: Carrier) -> Task
    requires { (carrier.0 < 12) × (task_numbers pairs.now.tasks at carrier.0 < 12) }
    ensures { (result.0 ≡ task_numbers pairs.now.tasks at carrier.0) × (result.0 < 12) }
{
    pairs.tasks[carrier.0].unwrap()
}

// The tasks of m carriers as a list of 12, 255 past m.
// Kept: 255 is document 01's number in a task list from m on; and m beside the list, past whose part there may be no task.
fn listed(m: usize, pairs: &Pairs) -> [u8; 12]
    requires { (m ≤ 12) × (length (task_numbers pairs.now.tasks) ≡ 12) × ((i : ℕ) → i < m → task_numbers pairs.now.tasks at i < 12) }
    ensures { result ≡ task_list (take m (task_numbers pairs.now.tasks)) }
{
    let mut tasks = [255u8; 12];
    for (i, number) in tasks[..m].iter_mut().enumerate() {
        let task = own_task(pairs, Carrier(i));
        *number = task.0 as u8;
    }
    tasks
}

// The sum of the weights of the entries that an assignment uses.
fn total(m: usize, t: &[u16; 144], tasks: &[u8; 12]) -> u64
    requires { (m ≤ 12) × ((i : ℕ) → i < m → tasks.now at i < 12) }
    ensures { result ≡ cost m (λ i j. weigh_of (cell t.now i j)) tasks.now }
{
    (0..m)
        .map(|i| weigh(entry(t, Carrier(i), task_of(tasks, Carrier(i)))))
        .sum()
}

// The first assignment in order of the table of which t is the working copy, with prices.
pub fn first_priced(m: usize, t: &[u16; 144]) -> Option<PricedCandidate>
    requires { m ≤ 12 }
    ensures { option_map (λ f. f.candidate) result ≡ candidate_for m (copied m t.now) (least_assignment m (copied m t.now)) }
{
    let weights = merged_weights(m, t);
    let solution = hungarian::solve(m, &weights);
    let tasks = listed(m, &solution.pairs);
    let sum = total(m, t, &tasks);
    if HEAVY <= sum {
        return None;
    }
    Some(PricedCandidate {
        candidate: Candidate {
            sum: sum as u32,
            tasks,
        },
        columns: solution.prices.columns,
    })
}

// The first assignment in order of the table of which t is the working copy.
pub fn first(m: usize, t: &[u16; 144]) -> Option<Candidate>
    requires { m ≤ 12 }
    ensures { result ≡ candidate_for m (copied m t.now) (least_assignment m (copied m t.now)) }
{
    first_priced(m, t).map(|f| f.candidate)
}

// The part of slot j of a root, whose own part this is with the root's tasks: carrier j is the first with another task.
pub fn slot(root: &Part, j: Carrier) -> Part
    requires { (j.0 < 12) × (root.now.tasks at j.0 < 12) }
    ensures { part_of result ≡ slot_part root.now.tasks root.now.row.0 root.now.closed j.0 }
{
    let mut closed = if j == root.row { root.closed } else { [0; 12] };
    closed[task_of(&root.tasks, j).0] = 1;
    Part {
        tasks: root.tasks,
        row: j,
        closed,
    }
}

// The first assignment in order of the part of slot j of a root; t is the working copy of the table.
pub fn slot_candidate(m: usize, t: &[u16; 144], root: &Part, j: Carrier) -> Option<Candidate>
    requires { (m ≤ 12) × (j.0 < m) × (root.now.tasks at j.0 < 12) }
    ensures { result ≡ candidate_for m (copied m t.now) (candidate m (copied m t.now) (slot_part (take m root.now.tasks) root.now.row.0 root.now.closed j.0)) }
{
    first(m, &slot(root, j).table(m, t))
}
