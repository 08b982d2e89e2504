// The calls that read a job sheet (document 01, "The job sheet"). Each equals its definition on any bytes whatever: a byte past the
// end reads 0, a stretch is cut off where the sheet ends, and a task from m on has no goals. What holds of a sheet without causes
// alone is said as an implication.
#![tactic(auto)]

mod accepted_sheet;

ghost use Rattle.std.specs.Prelude.{◌≡◌, ◌<◌, ◌≤◌, None, length, get_or};
ghost use Rattle.deck.specs.Causes.{answer_unless};
ghost use Rattle.deck.specs.Sheet.{count_of, part, grid_stretch, read, area, free, grid_byte, start_of, goals_of, last_goal, most_goals, cause, sheet_cause};
ghost use Rattle.deck.specs.Calls.{workspace_for, workspace_of, reading_of, read_call, goals_call};
ghost use Rattle.sheet_parts.specs.Part.{BeginsAt};

use deck::{Carrier, Cause, MOST_PAIRS, Reading, Stretch, Task};
use sheet_parts::{GRID, STARTS};

// The header: w, h, m, H and N; and how many places the grid has.
pub use accepted_sheet::AcceptedSheet;
pub use sheet_parts::{area, count, height, horizon, limit, width};

// v is a place of the grid that is not blocked: its byte is 0, or 2 to 5, with which only leaving it is limited.
pub fn is_free(s: &[u8], v: usize) -> bool
    ensures { result ≡ free (read s.now) v }
{
    sheet_parts::is_free(s, v)
}

// The first cause that lies in the sheet itself, 1 to 7, or that it is accepted. A sheet of no bytes, the dark house, is.
pub fn check(s: &[u8]) -> Result<(), Cause>
    ensures { result ≡ answer_unless (sheet_cause s.now) tt }
{
    sheet_causes::check(s)
}

// Of an accepted sheet the header and the directory's pairs; nowhere past the last pair.
// Kept: `sheet_cause`, here and where others ask for it, since a sheet of no bytes has no cause either and is no `AcceptedSheet`.
fn reading_of(s: &[u8]) -> Reading
    requires { sheet_cause s.now ≡ None }
    ensures { result ≡ reading_of s.now }
{
    let nowhere = Stretch { offset: 0, size: 0 };
    let mut pairs = [nowhere; MOST_PAIRS];
    for (k, pair) in pairs[..sheet_parts::pairs(s)].iter_mut().enumerate() {
        *pair = sheet_parts::pair_at(s, k);
    }
    Reading {
        width: width(s),
        height: height(s),
        count: count(s),
        horizon: horizon(s),
        limit: limit(s),
        pairs,
    }
}

// The sheet reader: the header and the directory's pairs, or the cause.
#[tactic(auto, using(meaning::proofs::Accepted::none_of_ok, meaning::proofs::Accepted::cause_of_err), unfolding(deck::specs::Calls::read_call))]
pub fn read(s: &[u8]) -> Result<Reading, Cause>
    ensures { result ≡ read_call s.now }
{
    check(s)?;
    Ok(reading_of(s))
}

// A task's goals: that stretch of the sheet itself; on any cause, 1 to 8, the empty stretch at the sheet's start.
#[tactic(auto, using(meaning::proofs::Accepted::none_of_ok, meaning::proofs::Accepted::cause_of_err, sheet_parts::proofs::Tasks::goals_accepted, sheet_parts::proofs::Tasks::goals_refused, sheet_parts::proofs::Tasks::part_begins))]
pub fn task_goals<'a>(s: &'a [u8], j: Task) -> &'a [u8]
    ensures result_value { result.now ≡ part s.now (goals_call s.now j) }
    ensures begins_at { BeginsAt (goals_call s.now j).offset s.entry result }
{
    match check(s) {
        Ok(()) => sheet_parts::task_part(s, j),
        Err(_) => &s[..0],
    }
}

// Where the grid's bytes begin.
pub fn grid_offset(s: &[u8]) -> usize
    ensures value { result ≡ (grid_stretch s.now).offset }
    ensures upper_bound { result < 65536 }
{
    sheet_parts::pair_at(s, GRID).offset
}

// The grid byte of the place v, 0 past the grid. Of an accepted sheet: 0 free, 1 blocked, and 2, 3, 4 or 5 a free place that may be
// left only to the north, east, south or west.
// Kept: 0 as in the definition `grid_byte`, which is promised of any place.
#[tactic(auto, using(crate::proofs::Accepted::grid_byte_lem))]
pub fn grid_byte(s: &[u8], v: usize) -> u8
    ensures value { result ≡ grid_byte (read s.now) v }
    ensures upper_bound { cause s.now ≡ None → result ≤ 5 }
{
    sheet_parts::grid_byte(s, v)
}

// The place at which the carrier i starts, 0 past the last start.
// Kept: 0 as in the definition `start_of`, which is promised of any carrier's number.
#[tactic(auto, using(crate::proofs::Accepted::start_on_grid))]
pub fn start(s: &[u8], i: Carrier) -> usize
    ensures value { result ≡ start_of (read s.now) i }
    ensures upper_bound { cause s.now ≡ None → result < area (read s.now) }
    ensures upper_bound_2 { result < 65536 }
{
    sheet_parts::nth_word(sheet_parts::stretch(s, STARTS), i.0)
}

// How many goals the task j has.
#[tactic(auto, using(crate::proofs::Accepted::goals_range, crate::proofs::Accepted::goals_at_most))]
pub fn goal_count(s: &[u8], j: Task) -> usize
    ensures value { result ≡ length (goals_of (read s.now) j) }
    ensures upper_bound { cause s.now ≡ None → result ≤ 8 }
    ensures result_nonzero { cause s.now ≡ None → j.0 < count_of s.now → 0 < result }
{
    sheet_parts::goals_number(s, j)
}

// The goal k of the task j, counted from 0; 0 past its last.
// Kept: 0 as in the clause, which is of any task and any k; a caller that counts k below `goal_count` does not meet it.
#[tactic(auto, using(crate::proofs::Accepted::goal_on_grid))]
pub fn goal(s: &[u8], j: Task, k: usize) -> usize
    ensures value { result ≡ get_or (goals_of (read s.now) j) k 0 }
    ensures upper_bound { cause s.now ≡ None → result < area (read s.now) }
    ensures upper_bound_2 { result < 65536 }
{
    sheet_parts::nth_word(sheet_parts::task_part(s, j), k)
}

// The last goal of the task j, 0 where it has none.
// Kept: 0 as in the definition `last_goal`, which is promised of any task's number; no task of an accepted sheet is without goals.
#[tactic(auto, using(crate::proofs::Accepted::last_goal_on_grid))]
pub fn last_goal(s: &[u8], j: Task) -> usize
    ensures value { result ≡ last_goal (read s.now) j }
    ensures upper_bound { cause s.now ≡ None → result < area (read s.now) }
    ensures upper_bound_2 { result < 65536 }
{
    sheet_parts::last_word(sheet_parts::task_part(s, j))
}

// The most goals of any task.
fn most_goals(s: &[u8]) -> usize
    ensures value { result ≡ most_goals (read s.now) }
    ensures upper_bound { result < 32768 }
{
    (0..count(s))
        .map(|j| sheet_parts::goals_number(s, Task(j)))
        .max()
        .unwrap_or(0)
}

// The words of 32 bits of workspace by the formula.
#[tactic(auto, unfolding(deck::specs::Calls::workspace_for))]
fn formula(s: &[u8]) -> usize
    ensures { result ≡ workspace_for (read s.now) }
{
    let layers = horizon(s) + 1;
    let labels = most_goals(s) + 1;
    512 * limit(s) + layers * area(s) * labels + 4096
}

// How many words of 32 bits of workspace the sheet asks for: none without carriers.
#[tactic(auto, using(meaning::proofs::Dark::with_carriers, meaning::proofs::Dark::workspace_with, meaning::proofs::Dark::workspace_without, crate::proofs::Accepted::workspace_bound))]
pub fn workspace(s: &[u8]) -> usize
    ensures value { result ≡ workspace_of (read s.now) }
    ensures upper_bound { sheet_cause s.now ≡ None → result < 8388608 }
{
    if count(s) == 0 { 0 } else { formula(s) }
}
