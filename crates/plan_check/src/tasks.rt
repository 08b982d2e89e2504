// Task lists of twelve numbers: the first m are an assignment, and 255 follows.
ghost use Rattle.std.specs.Prelude.{◌≡◌, ◌≤◌, take, drop, eqb};
ghost use Rattle.deck.specs.Lists.{all, distinct};
ghost use Rattle.deck.specs.PlanCheck.{is_assignment};

// No number stands in the list twice.
fn all_differ(list: &[u8]) -> bool
    ensures { result ≡ distinct list.now }
{
    // Kept: each number with those after it is what `split_first` hands out; an iterator would need an index for them.
    let mut rest = list;
    while let Some((x, tail)) = rest.split_first() {
        if tail.contains(x) {
            return false;
        }
        rest = tail;
    }
    true
}

// The first m numbers are an assignment.
// Kept: m ≤ 12, here and in the crates above: m goes alone as well as with a table or a list, so that a type of it would be taken
// apart in each loop and each clause.
pub fn assigns(tasks: &[u8; 12], m: usize) -> bool
    requires { m ≤ 12 }
    ensures { result ≡ is_assignment m (take m tasks.now) }
{
    let own = &tasks[..m];
    own.iter().all(|task| usize::from(*task) < m) && all_differ(own)
}

// The numbers from m on are 255.
// Kept: 255 is document 01's number in a task list from m on.
pub fn ends(tasks: &[u8; 12], m: usize) -> bool
    requires { m ≤ 12 }
    ensures { result ≡ all (eqb 255) (drop m tasks.now) }
{
    tasks[m..].iter().all(|task| *task == 255)
}
