// The prices of a least assignment, i32: those of the rows at zero and above, those of the columns, which are negated, at zero and
// below. They are tested as they are handed out: row plus column price is at most each entry, a barred one counted at its weight,
// and equals the chosen ones.
ghost use Rattle.std.specs.Prelude.{◌≡◌, List, true, ℕ, ◌≤◌, ◌<◌, get_or, pos, neg_ℤ, ◌+ℤ◌, ◌-ℤ◌, ◌≤ℤ◌, Some};
ghost use Rattle.std.specs.Int.Signed.{mag};
ghost use Rattle.deck.specs.Assignments.{least_assignment};
ghost use Rattle.deck.specs.Calls.{task_list, ZeroFrom};
ghost use Rattle.meaning.specs.Meaning.{◌at◌};
ghost use Rattle.prices.specs.Weights.{weigh as weigh_of};
ghost use Rattle.prices.specs.Square.{cell, copied};
ghost use Rattle.candidates.specs.Candidates.{candidate_of};
ghost use Rattle.assignment.specs.Answers.{Answered, Handed, Prices, Small, rounded as rounded_of, rounded_column, tight_of, dearest, highest};

use candidates::{Candidate, PricedCandidate};
use deck::{Assignment, Carrier, Task};
use tables::{entry, task_of, weigh, weights};

// The prices of the rows and of the columns.
// Kept: two arrays, of which one is by carrier and one by task; and a type beside `hungarian::Prices`, whose columns are negated, so that
// neither stands for the other.
#[derive(Clone, Copy)]
struct Duals {
    rows: [i32; 12],
    columns: [i32; 12],
}

// The prices of the first m numbers, 0 past m.
// Kept: document 01 asks for zeros there, and the C interface lends twelve places.
fn prices<F: Fn(usize) -> i32>(m: usize, price: F) -> [i32; 12]
    requires few { m ≤ 12 }
    requires callable { (k : ℕ) → k < m → F.pre price k }
    ensures each { (k : ℕ) → k < m → F.post price k (get_or result k (pos 0)) }
    ensures zero { ZeroFrom m result }
{
    let mut prices = [0i32; 12];
    for (k, own) in prices[..m].iter_mut().enumerate() {
        *own = price(k);
    }
    prices
}

// The price of a column, of which the method has the negated one.
fn negated(x: u64) -> i32
    requires { x ≤ dearest }
    ensures { result ≡ neg_ℤ (pos x) }
{
    -(x as i32)
}

// A price by merged weights, which is in twelves to the power 12, rounded to the nearest by plain ones.
fn rounded(x: u64) -> u64
    ensures { (result ≡ rounded_of x) × (result ≤ dearest) }
{
    (x / 4458050224128 + 1) / 2
}

// The price of the row that is tight on an entry.
fn tight(entry: u16, column: i32) -> i32
    requires { mag column ≤ dearest }
    ensures { (result ≡ pos entry -ℤ column) × (mag result ≤ highest) }
{
    i32::from(entry) - column
}

// Whether row plus column price is at most the entry's weight.
fn serves(row: i32, column: i32, entry: u16) -> bool
    requires { (mag row ≤ highest) × (mag column ≤ dearest) }
    ensures { result ≡ true → (row +ℤ column) ≤ℤ pos (weigh_of entry) }
{
    row + column <= weigh(entry) as i32
}

// The prices of the columns, by the negated ones by merged weights.
fn rounded_prices(m: usize, columns: &[u64; 12]) -> [i32; 12]
    requires { m ≤ 12 }
    ensures { Prices m dearest (rounded_column columns.now) result }
{
    prices(m, |k| negated(rounded(columns[k])))
}

// The prices of the rows that are tight on the tasks.
fn tight_rows(m: usize, t: &[u16; 144], tasks: &[u8; 12], columns: &[i32; 12]) -> [i32; 12]
    requires { (m ≤ 12) × ((i : ℕ) → i < m → tasks.now at i < m) × Small m dearest columns.now }
    ensures { Prices m highest (tight_of t.now tasks.now columns.now) result }
{
    prices(m, |i| {
        let task = task_of(tasks, Carrier(i));
        tight(entry(t, Carrier(i), task), columns[task.0])
    })
}

impl Duals {
    // Those by merged weights: the columns' rounded, and the rows' tight on the tasks.
    fn rounded(m: usize, t: &[u16; 144], first: &PricedCandidate) -> Duals
        requires { (m ≤ 12) × ((i : ℕ) → i < m → first.now.candidate.tasks at i < m) }
        ensures { Prices m dearest (rounded_column first.now.columns) result.columns × Prices m highest (tight_of t.now first.now.candidate.tasks result.columns) result.rows }
    {
        let columns = rounded_prices(m, &first.columns);
        Duals {
            rows: tight_rows(m, t, &first.candidate.tasks, &columns),
            columns,
        }
    }

    // Those of a run on plain weights.
    // Kept: m, the table and that it has an assignment, here and below: `priced` is handed these, and a struct of them would be made
    // there only to be taken apart here.
    fn solved(m: usize, t: &[u16; 144]) -> Duals
        requires { (m ≤ 12) × ((a : List ℕ) × (least_assignment m (copied m t.now) ≡ Some a)) }
        ensures { (a : List ℕ) → least_assignment m (copied m t.now) ≡ Some a → Handed m (copied m t.now) a result.rows result.columns }
    {
        let weights = weights(m, t);
        let solved = hungarian::solve(m, &weights).prices;
        let rows = prices(m, |k| solved.rows[k] as i32);
        let columns = prices(m, |k| negated(solved.columns[k]));
        Duals { rows, columns }
    }

    // Whether the price of a row serves every entry of the row.
    fn serve_row(&self, m: usize, t: &[u16; 144], carrier: Carrier) -> bool
        requires { (m ≤ 12) × (carrier.0 < m) × Small m highest self.now.rows × Small m dearest self.now.columns }
        ensures { result ≡ true → (j : ℕ) → j < m → (get_or self.now.rows carrier.0 (pos 0) +ℤ get_or self.now.columns j (pos 0)) ≤ℤ pos (weigh_of (cell t.now carrier.0 j)) }
    {
        (0..m).all(|j| serves(
            self.rows[carrier.0],
            self.columns[j],
            entry(t, carrier, Task(j)),
        ))
    }

    // Whether the prices serve every entry.
    fn serve(&self, m: usize, t: &[u16; 144]) -> bool
        requires { (m ≤ 12) × Small m highest self.now.rows × Small m dearest self.now.columns }
        ensures { result ≡ true → (i j : ℕ) → i < m → j < m → (get_or self.now.rows i (pos 0) +ℤ get_or self.now.columns j (pos 0)) ≤ℤ pos (weigh_of (cell t.now i j)) }
    {
        (0..m).all(|i| self.serve_row(m, t, Carrier(i)))
    }

    // Those that prove the first assignment least. Rounded prices may fail the test; then a second run on plain weights gives the prices.
    fn of(m: usize, t: &[u16; 144], first: &PricedCandidate) -> Duals
        requires { (m ≤ 12) × ((a : List ℕ) × (least_assignment m (copied m t.now) ≡ Some a) × (first.now.candidate ≡ candidate_of m (copied m t.now) a)) }
        ensures { (a : List ℕ) → least_assignment m (copied m t.now) ≡ Some a → Handed m (copied m t.now) a result.rows result.columns }
    {
        let rounded = Duals::rounded(m, t, first);
        if rounded.serve(m, t) {
            return rounded;
        }
        Duals::solved(m, t)
    }
}

// The whole answer for a first assignment.
pub fn priced(m: usize, t: &[u16; 144], first: &PricedCandidate) -> Assignment
    requires { (m ≤ 12) × ((a : List ℕ) × (least_assignment m (copied m t.now) ≡ Some a) × (first.now.candidate ≡ candidate_of m (copied m t.now) a)) }
    ensures { Answered m (copied m t.now) result }
{
    let Candidate { sum, tasks } = first.candidate;
    let Duals { rows, columns } = Duals::of(m, t, first);
    Assignment {
        sum: sum as usize,
        tasks,
        rows,
        columns,
    }
}
