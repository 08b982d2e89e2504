// The assignments in order, each the first of a slot of those before: a tournament of at most 8 roots, with 12 slots to a root.
ghost use Rattle.std.specs.Prelude.{◌≤◌, ◌<◌};

use candidates::Candidate;
use deck::Carrier;
use std::io;
use tables::Part;
use testing::Spaced;

// A part of the assignments that remain, and the first of them.
#[derive(Clone, Copy)]
struct Slot {
    part: Part,
    first: Candidate,
}

impl Slot {
    // What remains of the part once its first assignment is listed.
    fn root(&self) -> Part {
        Part {
            tasks: self.first.tasks,
            ..self.part
        }
    }
}

// The slot of carrier j of a root, where its part has an assignment. The tasks of a root's list are below m, which no contract here says.
fn slot_of(m: usize, t: &[u16; 144], root: &Part, j: Carrier) -> Option<Slot>
    requires { (m ≤ 12) × (j.0 < m) }
{
    if m <= usize::from(root.tasks[j.0]) {
        return None;
    }
    Some(Slot {
        part: candidates::slot(root, j),
        first: candidates::slot_candidate(m, t, root, j)?,
    })
}

// The slots of a root.
fn opened(m: usize, t: &[u16; 144], root: &Part) -> [Option<Slot>; 12]
    requires { m ≤ 12 }
{
    std::array::from_fn(|j| {
        if j < root.row.0 || m <= j {
            return None;
        }
        slot_of(m, t, root, Carrier(j))
    })
}

// The slot whose first assignment comes first; it is taken out.
fn take_first(slots: &mut [[Option<Slot>; 12]; 8]) -> Option<Slot> {
    slots
        .iter_mut()
        .flatten()
        .filter(|slot| slot.is_some())
        .min_by_key(|slot| slot.map(|s| s.first))?
        .take()
}

// Lists the assignments after the first, up to 8 and up to `most` in all; of a table that is none, nothing.
pub fn list_next(rt: &impl Print, m: usize, table: &[u16], most: usize) -> io::Result<()> {
    if m < 1 || 12 < m || table.len() != m * m {
        return Ok(());
    }
    let t = tables::filled(m, table);
    match candidates::first(m, &t) {
        Some(first) => list_from(rt, m, &t, first, most),
        None => Ok(()),
    }
}

fn list_from(
    rt: &impl Print,
    m: usize,
    t: &[u16; 144],
    first: Candidate,
    most: usize,
) -> io::Result<()>
    requires { m ≤ 12 }
{
    let tasks = first.tasks;
    let root = Part {
        tasks,
        row: Carrier(0),
        closed: [0; 12],
    };
    let mut slots = [[None; 12]; 8];
    slots[0] = opened(m, t, &root);
    // Kept: an index, since the slots of all roots are looked at before those of the next are written.
    for k in 1..most.min(8) {
        let Some(slot) = take_first(&mut slots) else {
            return Ok(());
        };
        let Candidate { sum, tasks } = slot.first;
        println!(rt; "next {sum}:{}", Spaced(&tasks[..m]))?;
        slots[k] = opened(m, t, &slot.root());
    }
    Ok(())
}
