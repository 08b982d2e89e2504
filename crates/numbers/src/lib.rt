// Answers as numbers of 32 bits: every value of an answer is far below 2^32.
#![tactic(auto)]

ghost use Rattle.std.specs.Prelude.{◌≡◌, ◌++◌};
ghost use Rattle.deck.specs.Numbers.{found_numbers, assignment_numbers, collision_numbers, search_numbers};
ghost use Rattle.deck.specs.Causes.{number};
ghost use Rattle.numbers.specs.Small.{SmallNumber, SmallAssignment, SmallFound, SmallSearch};

use deck::{Assignment, Cause, Collision, SearchAnswer};

// A task list of 12 with no task.
// Kept: 255 is document 01's number of an entry that has no task.
pub const NO_TASKS: [u8; 12] = [255; 12];

// The number of a cause.
// Kept: the C interface takes a cause as a number.
pub fn number(cause: Cause) -> u32
    ensures { result ≡ number cause }
{
    u32::from(u8::from(cause))
}

// The numbers of an answer that is a number, as the finish of a path and the flowtime of a plan that is checked: cause, 1 if there is
// one, and the number.
pub fn found_numbers(answer: Result<Option<usize>, Cause>) -> [u32; 3]
    requires { SmallNumber answer }
    ensures { result ≡ found_numbers answer }
{
    match answer {
        Ok(Some(n)) => [0, 1, n as u32],
        Ok(None) => [0, 0, 0],
        Err(cause) => [number(cause), 0, 0],
    }
}

// The numbers of an assignment: those of its sum.
pub fn assignment_numbers(answer: Result<Option<Assignment>, Cause>) -> [u32; 3]
    requires { SmallAssignment answer }
    ensures { result ≡ assignment_numbers answer }
{
    found_numbers(answer.map(|found| found.map(|a| a.sum)))
}

// The numbers of a collision: cause, 1 if there is one, its kind and its values.
pub fn collision_numbers(answer: Result<Option<Collision>, Cause>) -> [u32; 8]
    requires { SmallFound answer }
    ensures { result ≡ collision_numbers answer }
{
    match answer {
        Ok(Some(Collision::Place { t, i, j, u })) => {
            [0, 1, 0, t as u32, i.0 as u32, j.0 as u32, u as u32, 0]
        }
        Ok(Some(Collision::Move { t, i, j, u, v })) => {
            [
                0, 1, 1, t as u32, i.0 as u32, j.0 as u32, u as u32, v as u32,
            ]
        }
        Ok(None) => [0; 8],
        Err(cause) => [number(cause), 0, 0, 0, 0, 0, 0, 0],
    }
}

// The task list behind the first five numbers.
fn with_tasks(head: [u32; 5], tasks: &[u8; 12]) -> [u32; 17]
    ensures { result ≡ head ++ tasks.now }
{
    let mut numbers = [0; 17];
    numbers[..5].copy_from_slice(&head);
    numbers[5..].copy_from_slice(&tasks.map(|task| u32::from(task)));
    numbers
}

// The numbers of a search: cause, kind, flowtime, nodes made, bound, and the task list.
pub fn search_numbers(answer: Result<SearchAnswer, Cause>) -> [u32; 17]
    requires { SmallSearch answer }
    ensures { result ≡ search_numbers answer }
{
    match answer {
        Ok(
            SearchAnswer::Plan {
                tasks,
                flowtime,
                nodes,
                bound,
            },
        ) => with_tasks([0, 0, flowtime as u32, nodes as u32, bound as u32], &tasks),
        Ok(SearchAnswer::NoPlan { nodes }) => with_tasks([0, 1, 0, nodes as u32, 0], &NO_TASKS),
        Ok(SearchAnswer::Spent { nodes, bound }) => {
            with_tasks([0, 2, 0, nodes as u32, bound as u32], &NO_TASKS)
        }
        Err(cause) => with_tasks([number(cause), 3, 0, 0, 0], &NO_TASKS),
    }
}
