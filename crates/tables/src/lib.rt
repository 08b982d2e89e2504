// Working copies of tables of entries, twelve to a row, and the weights of their entries; 65535 bars an entry. A carrier's number
// and a task's number index them as types of their own, so that neither takes the other's place.
#![tactic(auto)]

ghost use Rattle.std.specs.Prelude.{◌≡◌, true, false, ℕ, ◌+◌, ◌*◌, ◌≤◌, ◌<◌, Some, length, set, slice_get};
ghost use Rattle.meaning.specs.Meaning.{◌at◌};
ghost use Rattle.deck.specs.Assignments.{entry_at};
ghost use Rattle.prices.specs.Weights.{heavy, weigh as weigh_of};
ghost use Rattle.prices.specs.Square.{cell, copied};
ghost use Rattle.partition.specs.Parts.{part_entry, part_table};
ghost use Rattle.tables.specs.Copies.{part_of, weight_of, Weighed};

use deck::{Carrier, Task};

// Kept: a number for a barred entry, since document 01 has it in the tables that callers lend.
pub const BARRED: u16 = 65535;

// Heavier than any sum of 12 entries that are not barred.
pub const HEAVY: u64 = 786409;

// A part of the assignments that remain: the carriers before `row` keep their tasks, carrier `row` has none that is closed, for
// which `closed` is not 0.
// Kept: two arrays, since `tasks` is by carrier and `closed` by task.
#[derive(Clone, Copy, Debug, PartialEq, Eq)]
pub struct Part {
    pub tasks: [u8; 12],
    pub row: Carrier,
    pub closed: [u8; 12],
}

// The number for a carrier and a task in a square of twelve to a row.
// Kept: one array of 144, which document 01 asks for; its places are counted here and in `put`, and nowhere else.
// Kept: carrier and task by a bound, here and in the crates above, since a call may be handed any number of each; a second type for
// those below 12 would be made of the first wherever one is read from a list.
pub fn entry<T: Copy>(square: &[T; 144], carrier: Carrier, task: Task) -> T
    requires { (carrier.0 < 12) × (task.0 < 12) }
    ensures { slice_get square.now (carrier.0 * 12 + task.0) ≡ Some result }
{
    square[carrier.0 * 12 + task.0]
}

// The number x for a carrier and a task.
// Kept: a place of the array, as in `entry`.
pub fn put<T: Copy>(square: &mut [T; 144], carrier: Carrier, task: Task, x: T)
    requires { (carrier.0 < 12) × (task.0 < 12) }
    ensures { square.new ≡ set square.old (carrier.0 * 12 + task.0) x }
{
    square[carrier.0 * 12 + task.0] = x;
}

// The square that has `number` of each of m carriers and m tasks, and `rest` past them.
pub fn square<T: Copy, F: Fn(Carrier, Task) -> T>(m: usize, rest: T, number: F) -> [T; 144]
    requires few { m ≤ 12 }
    requires callable { (i j : ℕ) → i < m → j < m → F.pre number (record { 0 = i }) (record { 0 = j }) }
    ensures { (i j : ℕ) → i < m → j < m → (x : T) × (slice_get result (i * 12 + j) ≡ Some x) × F.post number (record { 0 = i }) (record { 0 = j }) x }
{
    let mut square = [rest; 144];
    for i in 0..m {
        for j in 0..m {
            put(
                &mut square,
                Carrier(i),
                Task(j),
                number(Carrier(i), Task(j)),
            );
        }
    }
    square
}

// The entry of a table of m by m.
// Kept: the table as the C interface lends it, a list with m to a row, and so a carrier and a task below m.
fn table_entry(m: usize, table: &[u16], carrier: Carrier, task: Task) -> u16
    requires { (m ≤ 12) × (carrier.0 < m) × (task.0 < m) × (length table.now ≡ m * m) }
    ensures { result ≡ entry_at m table.now carrier.0 task.0 }
{
    table[carrier.0 * m + task.0]
}

// The task of a carrier in a list of tasks.
pub fn task_of(tasks: &[u8; 12], carrier: Carrier) -> Task
    requires { carrier.0 < 12 }
    ensures { (result.0 ≡ tasks.now at carrier.0) × (result.0 < 256) }
{
    Task(usize::from(tasks[carrier.0]))
}

// The working copy of a table of m by m entries, filled for m carriers.
// Kept: barred past m, since document 01 asks for a copy that is an array of barred entries at first.
pub fn filled(m: usize, table: &[u16]) -> [u16; 144]
    requires { (m ≤ 12) × (length table.now ≡ m * m) }
    ensures { copied m result ≡ table.now }
{
    square(
        m,
        BARRED,
        |carrier, task| table_entry(m, table, carrier, task),
    )
}

impl Part {
    // The entry x for a carrier and a task in the part's working copy: barred where no assignment of the part uses it.
    // Kept: an entry of 16 bits like the others, so that a part's copy is a table again.
    #[tactic(auto, unfolding(partition::specs::Parts::part_entry))]
    fn entry(&self, carrier: Carrier, task: Task, x: u16) -> u16
        requires { (self.now.row.0 < 12) × (task.0 < 12) }
        ensures { result ≡ part_entry (part_of self.now) carrier.0 task.0 x }
    {
        if carrier < self.row {
            if task == task_of(&self.tasks, carrier) {
                x
            } else {
                BARRED
            }
        } else if carrier == self.row && self.closed[task.0] != 0 {
            BARRED
        } else {
            x
        }
    }

    // The part's working copy of a table.
    // Kept: barred past m, as in `filled`.
    pub fn table(&self, m: usize, table: &[u16; 144]) -> [u16; 144]
        requires { (m ≤ 12) × (self.now.row.0 < 12) }
        ensures { copied m result ≡ part_table m (copied m table.now) (part_of self.now) }
    {
        square(m, BARRED, |carrier, task| {
            self.entry(carrier, task, entry(table, carrier, task))
        })
    }
}

// The weight of an entry.
// Kept: a barred entry has a weight like the others, so that the method needs no case for it.
#[tactic(auto, unfolding(prices::specs::Weights::weigh))]
pub fn weigh(x: u16) -> u64
    ensures { (result ≡ weigh_of x) × (x ≤ 65535) × (result ≤ heavy) }
{
    if x == BARRED { HEAVY } else { u64::from(x) }
}

// The place of each carrier's digit: a power of 12, and a twelfth of that of the carrier before. The last carrier has none, since its
// task is known by the others'.
const PLACES: [u64; 12] = [
    61917364224,
    5159780352,
    429981696,
    35831808,
    2985984,
    248832,
    20736,
    1728,
    144,
    12,
    1,
    0,
];

// The weight of an entry merged with its task's digit below it, so that the least sum of weights is that of the first assignment in
// order.
fn merge(carrier: Carrier, task: Task, x: u16) -> u64
    requires { (carrier.0 < 12) × (task.0 < 12) }
    ensures { (result ≡ weight_of true carrier.0 task.0 x) × (x ≤ 65535) }
{
    weigh(x) * 8916100448256 + task.0 as u64 * PLACES[carrier.0]
}

// The merged weights of the entries of a table of m by m.
pub fn merged_weights(m: usize, t: &[u16; 144]) -> [u64; 144]
    requires { m ≤ 12 }
    ensures { Weighed m true t.now result }
{
    square(
        m,
        0,
        |carrier, task| merge(carrier, task, entry(t, carrier, task)),
    )
}

// The plain weights of the entries of a table of m by m.
pub fn weights(m: usize, t: &[u16; 144]) -> [u64; 144]
    requires { m ≤ 12 }
    ensures { Weighed m false t.now result }
{
    square(m, 0, |carrier, task| weigh(entry(t, carrier, task)))
}
