// The plan check of document 01: yes exactly for a plan, with its flowtime.
#![tactic(auto)]

mod tasks;

ghost use Rattle.std.specs.Prelude.{◌≡◌, suc, ◌*◌, ◌<◌, ◌≤◌, length, take, None};
ghost use Rattle.deck.specs.Lists.{is_nil, pieces};
ghost use Rattle.deck.specs.Sheet.{read, sheet_cause, count_of, horizon_of};
ghost use Rattle.deck.specs.Collisions.{collisions};
ghost use Rattle.deck.specs.Calls.{check_call};
ghost use Rattle.deck.specs.Numbers.{check_numbers};
ghost use Rattle.plan_check.specs.Answers.{flow_answer};
ghost use Rattle.plan_check.specs.Meant.{Meant};

use deck::{Carrier, Cause};
use sheet::AcceptedSheet;
use tables::task_of;

// No two of the m paths up to time h collide.
#[tactic(auto, unfolding(deck::specs::Collisions::first_collision))]
fn apart(m: usize, h: usize, paths: &[u16]) -> bool
    requires { (m * suc h ≤ length paths.now) × (h < 65536) }
    ensures { result ≡ is_nil (collisions m h (pieces m (suc h) paths.now)) }
{
    collision_scan::first_among(m, h, paths).is_none()
}

// The flowtime if each carrier's words are a path for its task.
// Kept: a loop with `?`, since the contract of a sum of options does not say that there is none where one of them is none; and each
// path by its carrier's number, which names the task too.
fn flowtime(s: &[u8], tasks: &[u8; 12], paths: &[u16]) -> Option<usize>
    requires { (sheet_cause s.now ≡ None) × (length paths.now ≡ count_of s.now * suc (horizon_of s.now)) }
    ensures { result ≡ flow_answer (read s.now) (take (count_of s.now) tasks.now) (pieces (count_of s.now) (suc (horizon_of s.now)) paths.now) }
{
    let n = sheet::horizon(s) + 1;
    let mut sum = 0;
    for i in 0..sheet::count(s) {
        let path = &paths[i * n..i * n + n];
        let carrier = Carrier(i);
        let task = task_of(tasks, carrier);
        sum += path_check::path_finish(AcceptedSheet::new(s), carrier, task, path)?;
    }
    Some(sum)
}

// Document 01's call, for any bytes, task list and words.
pub fn check_plan(s: &[u8], tasks: [u8; 12], paths: &[u16]) -> Result<Option<usize>, Cause>
    ensures call { check_numbers result ≡ check_numbers (check_call s.now tasks paths.now) }
    ensures meant { Meant s.now tasks paths.now result }
{
    sheet::check(s)?;
    let m = sheet::count(s);
    let h = sheet::horizon(s);
    if paths.len() != m * (h + 1) {
        return Err(Cause::WrongLength);
    }
    if !tasks::assigns(&tasks, m) || !tasks::ends(&tasks, m) || !apart(m, h, paths) {
        return Ok(None);
    }
    Ok(flowtime(s, &tasks, paths))
}
