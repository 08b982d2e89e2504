// The causes that lie in the sheet itself, one pass for each.
#![tactic(auto)]

ghost use Rattle.std.specs.Prelude.{◌≡◌, ◌<◌, List, ℕ, ◌+◌, true, false, leb, length, get_or, drop, MatchResult};
ghost use Rattle.deck.specs.Lists.{below, within, all, has, distinct};
ghost use Rattle.deck.specs.Causes.{answer_unless};
ghost use Rattle.deck.specs.Sheet.{count_of, pairs_for, directory_end, task, task_stretch, words, read, free, good_header, chained, goals_size, good_directory, good_grid, good_starts, good_goals, good_last_goals, cause, sheet_cause};

use deck::{Cause, Task};
use sheet_parts::{
    GRID, STARTS, TASKS, area, count, directory_end, height, is_free, last_word, limit, nth_word,
    pair_at, pairs, stretch, task_part, width, word_at,
};

// x is from low to high, both included.
fn in_range(x: usize, low: usize, high: usize) -> bool
    ensures { result ≡ within low high x }
{
    (low..=high).contains(&x)
}

// Each header byte is in its range (else cause 2). Every byte 3 is.
#[tactic(auto, using(sheet_parts::proofs::Words::zero_word, crate::proofs::Tests::all_bytes, crate::proofs::Tests::and_assoc), unfolding(deck::specs::Sheet::good_header))]
fn header_good(s: &[u8]) -> bool
    ensures { result ≡ good_header s.now }
{
    in_range(width(s), 1, 32)
        && in_range(height(s), 1, 32)
        && in_range(count(s), 1, 12)
        && in_range(limit(s), 1, 4096)
        // Bytes 6 and 7 are zero.
        && word_at(s, 6) == 0
}

// The first stretch begins where the directory ends, each next where the previous one ends, and the last ends at the sheet's end.
#[tactic(auto, using(crate::proofs::Chain::chain_ends, crate::proofs::Chain::chain_breaks, crate::proofs::Chain::chain_goes_on))]
fn pairs_chained(s: &[u8]) -> bool
    ensures { result ≡ chained s.now (pairs_for (count_of s.now)) 0 (directory_end s.now) }
{
    let mut end = directory_end(s);
    for k in 0..pairs(s) {
        let pair = pair_at(s, k);
        if pair.offset != end {
            return false;
        }
        end += pair.size;
    }
    end == s.len()
}

// A task's length is even, 2 to 16.
#[tactic(auto, unfolding(deck::specs::Sheet::goals_size))]
fn size_good(n: usize) -> bool
    ensures { result ≡ goals_size n }
{
    in_range(n, 2, 16) && n % 2 == 0
}

fn sizes_good(s: &[u8]) -> bool
    ensures { result ≡ all (λ j. goals_size (task_stretch s.now (task j)).size) (below (count_of s.now)) }
{
    (0..count(s)).all(|j| size_good(pair_at(s, TASKS + j).size))
}

// The directory is whole and each pair keeps its rule (else cause 3).
#[tactic(auto, unfolding(deck::specs::Sheet::good_directory))]
fn directory_good(s: &[u8]) -> bool
    ensures { result ≡ good_directory s.now }
{
    directory_end(s) <= s.len()
        && pairs_chained(s)
        && pair_at(s, GRID).size == area(s)
        && pair_at(s, STARTS).size == 2 * count(s)
        && sizes_good(s)
}

// No grid byte is above 5 (else cause 4).
fn grid_good(s: &[u8]) -> bool
    ensures { result ≡ good_grid (read s.now) }
{
    stretch(s, GRID).iter().all(|byte| *byte <= 5)
}

// Each of the two-byte places p is on the grid and not blocked.
fn places_free(s: &[u8], p: &[u8]) -> bool
    ensures { result ≡ all (free (read s.now)) (words p.now) }
{
    (0..p.len() / 2).all(|k| is_free(s, nth_word(p, k)))
}

// x is one of the n places from the number `from` on. Kept, here and where a closure is handed on: that it can be called, which no type says.
fn again<F: Fn(usize) -> usize>(n: usize, place: F, x: usize, from: usize) -> bool
    requires { F.IsAlwaysCallable place }
    ensures { (l : List ℕ) → n ≡ length l → ((k y : ℕ) → F.post place k y → y ≡ get_or l k 0) → result ≡ has x (drop from l) }
{
    (from..n).any(|k| x == place(k))
}

// No two of n places are the same.
fn all_differ<F: Fn(usize) -> usize>(n: usize, place: F) -> bool
    requires { F.IsAlwaysCallable place }
    ensures { (l : List ℕ) → n ≡ length l → ((k y : ℕ) → F.post place k y → y ≡ get_or l k 0) → result ≡ distinct l }
{
    (0..n).all(
        |k|
            requires { (k < n) × F.IsAlwaysCallable place }
        { !again(n, &place, place(k), k + 1) },
    )
}

// Each start is on the grid, not blocked and not shared (else cause 5).
#[tactic(auto, using(sheet_parts::proofs::Words::length_words), unfolding(deck::specs::Sheet::good_starts))]
fn starts_good(s: &[u8]) -> bool
    ensures { result ≡ good_starts (read s.now) }
{
    let starts = stretch(s, STARTS);
    places_free(s, starts) && all_differ(starts.len() / 2, |k| nth_word(starts, k))
}

// Each goal is on the grid and not blocked (else cause 6).
fn goals_good(s: &[u8]) -> bool
    ensures { result ≡ good_goals (read s.now) }
{
    (0..count(s)).all(|j| places_free(s, task_part(s, Task(j))))
}

// No two tasks have one last goal (else cause 7).
#[tactic(auto, using(sheet_parts::proofs::Tasks::each_task_length, sheet_parts::proofs::Tasks::each_task_at), unfolding(deck::specs::Sheet::good_last_goals))]
fn last_goals_good(s: &[u8]) -> bool
    ensures { result ≡ good_last_goals (read s.now) }
{
    all_differ(count(s), |j| last_word(task_part(s, Task(j))))
}

// The cause where its test fails.
// Kept: the flag is a test's answer, so that the tests stay functions of their own that a definition states.
fn unless(good: bool, cause: Cause) -> Result<(), Cause>
    ensures { MatchResult result (λ _. good ≡ true) (λ c. (good ≡ false) × (c ≡ cause)) }
{
    if good { Ok(()) } else { Err(cause) }
}

// The tests of a sheet that has bytes, 1 to 7. Causes are tried in the table's order.
#[tactic(auto, unfolding(deck::specs::Sheet::cause))]
fn check_bytes(s: &[u8]) -> Result<(), Cause>
    ensures { result ≡ answer_unless (cause s.now) tt }
{
    unless(8 <= s.len(), Cause::ShortSheet)?;
    unless(header_good(s), Cause::BadHeader)?;
    unless(directory_good(s), Cause::BadDirectory)?;
    unless(grid_good(s), Cause::BadGrid)?;
    unless(starts_good(s), Cause::BadStart)?;
    unless(goals_good(s), Cause::BadGoal)?;
    unless(last_goals_good(s), Cause::SharedLastGoal)
}

// The first cause that lies in the sheet itself, or that it is accepted. A sheet of no bytes, the dark house, is.
#[tactic(auto, using(meaning::proofs::Dark::cause_without, meaning::proofs::Dark::cause_with))]
pub fn check(s: &[u8]) -> Result<(), Cause>
    ensures { result ≡ answer_unless (sheet_cause s.now) tt }
{
    if s.is_empty() {
        return Ok(());
    }
    check_bytes(s)
}
