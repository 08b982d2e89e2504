// One carrier's path on an accepted sheet: its start, its steps, its goals and its finish.
#![tactic(auto)]

mod grid;

ghost use Rattle.std.specs.Prelude.{◌≡◌, ◌≢◌, ℕ, suc, ◌-◌, ◌≤◌, ◌<◌, length, get_or, drop};
ghost use Rattle.deck.specs.Lists.{is_nil};
ghost use Rattle.deck.specs.Sheet.{read, horizon_of, words};
ghost use Rattle.deck.specs.Paths.{visit, left, finish_of};
ghost use Rattle.deck.specs.PlanCheck.{follows};
ghost use Rattle.path_check.specs.Answers.{path_answer};

use deck::{Carrier, Task};
use grid::Grid;
use sheet::AcceptedSheet;

// How many goals are visited once the carrier is on x, where k were visited before: up to the first from there on that is not x.
#[tactic(auto, using(sheet_parts::proofs::Words::length_words))]
fn visited(goals: &[u8], x: usize, k: usize) -> usize
    requires { k ≤ length (words goals.now) }
    ensures onward { k ≤ result }
    ensures upper_bound { result ≤ length (words goals.now) }
    ensures passed { (n : ℕ) → k ≤ n → n < result → get_or (words goals.now) n 0 ≡ x }
    ensures next { result < length (words goals.now) → get_or (words goals.now) result 0 ≢ x }
{
    let count = goals.len() / 2;
    (k..count)
        .find(|n| sheet_parts::nth_word(goals, *n) != x)
        .unwrap_or(count)
}

// The path visits the goals in order. Their words are handed in, so that the sheet's directory is not read for every place.
fn visits_all(goals: &[u8], path: &[u16]) -> bool
    ensures { result ≡ is_nil (left path.now (words goals.now)) }
{
    let mut k = 0;
    for u in path {
        k = visited(goals, usize::from(*u), k);
    }
    k == goals.len() / 2
}

// The least time from which the path stays on g; the length of the path where there is none.
// Kept: a length, as the definition `finish_of` has it, so that the finish of any path is a time or no time of it.
fn finish(path: &[u16], g: usize) -> usize
    ensures in_path { result ≤ length path.now }
    ensures rests { (t : ℕ) → result ≤ t → t < length path.now → get_or path.now t 0 ≡ g }
    ensures least { 0 < result → get_or path.now (result - 1) 0 ≢ g }
{
    path.iter()
        .rposition(|u| usize::from(*u) != g)
        .map_or(0, |t| t + 1)
}

// The finish of a path of the task: the one place where it is computed from the places.
pub fn finish_of(s: &[u8], j: Task, path: &[u16]) -> usize
    ensures { result ≡ finish_of (read s.now) j path.now }
{
    finish(path, sheet::last_goal(s, j))
}

// Each place of the path is a step from the one before.
fn goes(sheet: AcceptedSheet, path: &[u16]) -> bool
    ensures { result ≡ follows (read sheet.entry.bytes.now) path.now }
{
    Grid::new(sheet).follows(path)
}

// The finish of the path if it is one of the carrier for the task.
#[tactic(auto, unfolding(crate::specs::Answers::path_answer, deck::specs::PlanCheck::is_path, deck::specs::Paths::serves))]
pub fn path_finish(sheet: AcceptedSheet, i: Carrier, j: Task, path: &[u16]) -> Option<usize>
    requires { length path.now ≡ suc (horizon_of sheet.bytes.now) }
    ensures { result ≡ path_answer (read sheet.entry.bytes.now) i j path.now }
{
    let goals = sheet_parts::task_part(sheet.bytes, j);
    if usize::from(path[0]) != sheet.start(i) || !goes(sheet, path) || !visits_all(goals, path) {
        return None;
    }
    let finish = finish_of(sheet.bytes, j, path);
    if finish <= sheet.horizon() {
        Some(finish)
    } else {
        None
    }
}
