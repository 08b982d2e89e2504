// The assignments in order: the first of them as lists, by the records of roots in the lent workspace.
#![tactic(auto)]

ghost use Rattle.std.specs.Prelude.{◌≡◌, List, ℕ, ◌+◌, ◌*◌, ◌<◌, ◌≤◌, length};
ghost use Rattle.deck.specs.Assignments.{assignments_in_order};
ghost use Rattle.prices.specs.Square.{copied};
ghost use Rattle.records.specs.Record.{HasRecord};
ghost use Rattle.roots.specs.Tournament.{SlotsHold};
ghost use Rattle.in_order.specs.Listed.{room_for, Remaining, Taken, Listing, InOrderCall};

use deck::Cause;

// Makes the first root: the list of its assignment, where there is one. t is the working copy of the table.
fn take_first(work: &mut [u32], m: usize, t: &[u16; 144]) -> Option<[u8; 12]>
    requires { (0 < m) × (m ≤ 12) × (512 ≤ length work.old) }
    ensures { Taken m (copied m t.now) work.new 0 (assignments_in_order m (copied m t.now)) result }
{
    let first = candidates::first(m, t)?;
    let tasks = first.tasks;
    roots::first_root(work, m, t, tasks);
    Some(tasks)
}

// Makes the next root, of number `made`: the list of its assignment, where there is one.
fn take_next(work: &mut [u32], m: usize, t: &[u16; 144], made: usize) -> Option<[u8; 12]>
    requires { (m ≤ 12) × (made ≤ 4096) × HasRecord work.old made × ((rest : List (List ℕ)) × SlotsHold m (copied m t.now) work.old made rest) }
    ensures { (rest : List (List ℕ)) → SlotsHold m (copied m t.now) work.old made rest → Taken m (copied m t.now) work.new made rest result }
{
    let chosen = roots::next_slot(work, m, made)?;
    Some(roots::next_root(work, m, t, made, made, chosen))
}

// The first root or the next.
fn take(work: &mut [u32], m: usize, t: &[u16; 144], made: usize) -> Option<[u8; 12]>
    requires { (0 < m) × (m ≤ 12) × (made ≤ 4096) × HasRecord work.old made × ((rest : List (List ℕ)) × Remaining m (copied m t.now) work.old made rest) }
    ensures { (rest : List (List ℕ)) → Remaining m (copied m t.now) work.old made rest → Taken m (copied m t.now) work.new made rest result }
{
    if made == 0 {
        return take_first(work, m, t);
    }
    take_next(work, m, t, made)
}

// The first assignments in order, as many as there are, and `most` at most: how many are listed.
fn listed(work: &mut [u32], m: usize, t: &[u16; 144], most: usize, lists: &mut [u8]) -> usize
    requires { (0 < m) × (m ≤ 12) × (most ≤ 4096) × (512 * most ≤ length work.old) × (12 * most ≤ length lists.old) }
    ensures { Listing m (copied m t.now) most result lists.old lists.new }
{
    // Kept: no `chunks_exact_mut`, whose contract says nothing of what is written through it.
    for made in 0..most {
        let Some(tasks) = take(work, m, t, made) else {
            return made;
        };
        let at = 12 * made;
        lists[at..at + 12].copy_from_slice(&tasks);
    }
    most
}

// How many there is room for.
#[tactic(auto, unfolding(crate::specs::Listed::room_for))]
fn room(work: usize, lists: usize) -> usize
    ensures { (result ≡ room_for work lists) × (result ≤ 4096) × (512 * result ≤ work) × (12 * result ≤ lists) }
{
    4096usize.min(work / 512).min(lists / 12)
}

// THE CALL: for any count, table and lent words: how many are listed. A refused call changes no lent word.
pub fn in_order(m: u8, table: &[u16], work: &mut [u32], lists: &mut [u8]) -> Result<usize, Cause>
    ensures { InOrderCall m table.now work.old lists.old result work.new lists.new }
{
    let n = usize::from(m);
    if n < 1 || 12 < n || table.len() != n * n {
        return Err(Cause::BadCount);
    }
    let t = tables::filled(n, table);
    let most = room(work.len(), lists.len());
    Ok(listed(work, n, &t, most, lists))
}
