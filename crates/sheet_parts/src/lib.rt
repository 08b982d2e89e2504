// The bytes of a job sheet, the pairs of its directory, and the stretches that they name as parts of the caller's slice. Of any bytes
// whatever: a byte past the end reads 0, and a stretch is cut off where the sheet ends, as in the definitions.
#![tactic(auto)]

ghost use Rattle.std.specs.Prelude.{◌≡◌, ◌<◌, ◌≤◌, min, length, get_or};
ghost use Rattle.deck.specs.Lists.{last};
ghost use Rattle.deck.specs.Sheet.{byte_at, word_at, width_of, height_of, count_of, horizon_of, limit_of, part, pair_at, pairs_for, directory_end, words, read, area, grid_byte, free, goals_of};
ghost use Rattle.sheet_parts.specs.Part.{BeginsAt, task_part};

use deck::{Stretch, Task};

// Where the header's values stand: a byte each, and two for the node limit.
const WIDTH: usize = 0;

const HEIGHT: usize = 1;

const COUNT: usize = 2;

const HORIZON: usize = 3;

const LIMIT: usize = 4;

// The directory's pairs: the grid, the starts, then the tasks.
pub const GRID: usize = 0;

pub const STARTS: usize = 1;

pub const TASKS: usize = 2;

// The byte k, 0 past the end.
// Kept: 0 as in the definition `byte_at`, which is of any bytes; each caller would turn an Option into it.
fn byte_at(s: &[u8], k: usize) -> usize
    ensures value { result ≡ byte_at s.now k }
    ensures upper_bound { result < 256 }
{
    s.get(k).map_or(0, |byte| usize::from(*byte))
}

// The two-byte value at k, low byte first.
pub fn word_at(s: &[u8], k: usize) -> usize
    ensures value { result ≡ word_at s.now k }
    ensures upper_bound { result < 65536 }
{
    if k < s.len() {
        byte_at(s, k) + 256 * byte_at(s, k + 1)
    } else {
        0
    }
}

// The header: w, h, m, H and N.
// Kept: a function for each value, since each promises a definition of its own; one that takes the byte's place would promise none of
// them.
pub fn width(s: &[u8]) -> usize
    ensures value { result ≡ width_of s.now }
    ensures upper_bound { result < 256 }
{
    byte_at(s, WIDTH)
}

// Kept: apart from `width`, since it promises `height_of`.
pub fn height(s: &[u8]) -> usize
    ensures value { result ≡ height_of s.now }
    ensures upper_bound { result < 256 }
{
    byte_at(s, HEIGHT)
}

// Kept: apart from `width`, since it promises `count_of`.
pub fn count(s: &[u8]) -> usize
    ensures value { result ≡ count_of s.now }
    ensures upper_bound { result < 256 }
{
    byte_at(s, COUNT)
}

// Kept: apart from `width`, since it promises `horizon_of`.
pub fn horizon(s: &[u8]) -> usize
    ensures value { result ≡ horizon_of s.now }
    ensures upper_bound { result < 256 }
{
    byte_at(s, HORIZON)
}

pub fn limit(s: &[u8]) -> usize
    ensures value { result ≡ limit_of s.now }
    ensures upper_bound { result < 65536 }
{
    word_at(s, LIMIT)
}

// How many pairs the directory has, and where it ends.
pub fn pairs(s: &[u8]) -> usize
    ensures value { result ≡ pairs_for (count_of s.now) }
    ensures upper_bound { result < 512 }
{
    count(s) + TASKS
}

pub fn directory_end(s: &[u8]) -> usize
    ensures value { result ≡ directory_end s.now }
    ensures upper_bound { result < 4096 }
{
    8 + 4 * pairs(s)
}

// The pair k of the directory.
pub fn pair_at(s: &[u8], k: usize) -> Stretch
    requires { k < 65536 }
    ensures value { result ≡ pair_at s.now k }
    ensures upper_bound { (result.offset < 65536) × (result.size < 65536) }
{
    Stretch {
        offset: word_at(s, 8 + 4 * k),
        size: word_at(s, 10 + 4 * k),
    }
}

// The stretch that the pair k of the directory names, cut off where the sheet ends.
pub fn stretch<'a>(s: &'a [u8], k: usize) -> &'a [u8]
    requires { k < 65536 }
    ensures result_value { result.now ≡ part s.now (pair_at s.now k) }
    ensures begins_at { (pair_at s.now k).offset ≤ length s.now → BeginsAt (pair_at s.now k).offset s.entry result }
    ensures result_len_bound { length result.now < 65536 }
{
    let pair = pair_at(s, k);
    let n = s.len();
    let start = pair.offset.min(n);
    let end = (start + pair.size).min(n);
    &s[start..end]
}

// The word i of a list of two-byte values, 0 past the last.
// Kept: 0 as in the definitions of a start and a goal, which are of any number; an Option would be turned into it wherever one is
// promised.
#[tactic(auto, using(crate::proofs::Words::words_at, crate::proofs::Words::words_past))]
pub fn nth_word(p: &[u8], i: usize) -> usize
    ensures value { result ≡ get_or (words p.now) i 0 }
    ensures upper_bound { result < 65536 }
{
    if i < p.len() / 2 {
        word_at(p, 2 * i)
    } else {
        0
    }
}

// The last of the two-byte values p, 0 where there is none.
// Kept: 0 as in the definition `last_goal`, which is of any task's number, and so of one without goals.
#[tactic(auto, using(crate::proofs::Words::length_words, crate::proofs::Words::last_of))]
pub fn last_word(p: &[u8]) -> usize
    ensures value { result ≡ last 0 (words p.now) }
    ensures upper_bound { result < 65536 }
{
    nth_word(p, (p.len() / 2).saturating_sub(1))
}

// The stretch of the task j, empty at the sheet's start where there is no such task.
#[tactic(auto, using(crate::proofs::Tasks::goals_there, crate::proofs::Tasks::no_goals), unfolding(deck::specs::Sheet::words))]
pub fn task_part<'a>(s: &'a [u8], j: Task) -> &'a [u8]
    ensures result_value { result.now ≡ part s.now (task_part s.now j) }
    ensures begins_at { (task_part s.now j).offset ≤ length s.now → BeginsAt (task_part s.now j).offset s.entry result }
    ensures result_value_2 { words result.now ≡ goals_of (read s.now) j }
    ensures result_len_bound { length result.now < 65536 }
{
    if j.0 < count(s) {
        stretch(s, TASKS + j.0)
    } else {
        &s[0..0]
    }
}

// How many goals the task j has.
#[tactic(auto, using(crate::proofs::Words::length_words))]
pub fn goals_number(s: &[u8], j: Task) -> usize
    ensures value { result ≡ length (goals_of (read s.now) j) }
    ensures upper_bound { result < 32768 }
{
    task_part(s, j).len() / 2
}

// How many places the grid has.
pub fn area(s: &[u8]) -> usize
    ensures value { result ≡ area (read s.now) }
    ensures upper_bound { result < 65536 }
{
    width(s) * height(s)
}

// The grid byte of the place v, 0 past the grid.
// Kept: 0 as in the definition `grid_byte`; whether there is such a place `is_free` asks by the area.
pub fn grid_byte(s: &[u8], v: usize) -> u8
    ensures { result ≡ grid_byte (read s.now) v }
{
    stretch(s, GRID).get(v).copied().unwrap_or(0)
}

// v is a place of the grid that is not blocked: its byte is 0, or 2 to 5, with which only leaving it is limited.
pub fn is_free(s: &[u8], v: usize) -> bool
    ensures { result ≡ free (read s.now) v }
{
    v < area(s) && grid_byte(s, v) != 1
}
