// The search of an accepted sheet that has bytes, with room enough: the first root, the turns, and the answer for their end.
#![tactic(auto)]

ghost use Rattle.std.specs.Prelude.{◌≡◌, List, ℕ, ◌≤◌, length, None, Some};
ghost use Rattle.deck.specs.Sheet.{read, cause};
ghost use Rattle.deck.specs.Assignments.{least_assignment, table_of};
ghost use Rattle.deck.specs.Calls.{search_found, search_written, task_list, workspace_for, plan_words};
ghost use Rattle.deck.specs.Search.{Answer};
ghost use Rattle.deck.specs.Planner.{plan_for};
ghost use Rattle.bars.specs.Padded.{MaskOf};
ghost use Rattle.scratch.specs.Bounded.{Bounded};
ghost use Rattle.expand.specs.Given.{sheet_of, Room};
ghost use Rattle.turns.specs.Turns.{StartsOf, EndedWith};

use bars::Layer;
use deck::{Carrier, SearchAnswer, Task};
use expand::Given;
use records::Record;
use sheet::AcceptedSheet;
use turns::End;

// How many bytes the lower bounds of a task have.
const BOUNDS: usize = 9216;

// The starts of the carriers. Kept: an index, which names the carrier in the sheet; `iter_mut` with `enumerate` would have the same number.
fn starts_of(sheet: &AcceptedSheet) -> [u16; 12]
    ensures { StartsOf (read sheet.now.bytes.now) result }
{
    let mut starts = [0u16; 12];
    for i in 0..sheet.count() {
        starts[i] = sheet.start(Carrier(i)) as u16;
    }
    starts
}

// The lower bounds of all tasks. Kept: each task's bytes at a product: one table in fixed memory, which the search lends whole.
fn bounds_of(sheet: &AcceptedSheet, mask: &Layer, table: &mut [u8])
    requires { MaskOf (read sheet.now.bytes.now) mask.now × (length table.old ≡ 110592) }
    ensures { Bounded (read sheet.now.bytes.now) table.new }
{
    // Kept: no `chunks_exact_mut`, whose contract says nothing of what is written through it.
    for j in 0..sheet.count() {
        bounds::bounds(
            *sheet,
            Task(j),
            mask,
            &mut table[BOUNDS * j..BOUNDS * j + BOUNDS],
        );
    }
}

// The answer for the end of the search. Only a plan is written.
fn answered(
    given: &Given,
    starts: &[u16; 12],
    work: &[u32],
    end: End,
    out: &mut [u16],
) -> SearchAnswer
    requires room { Room given.now work.now }
    requires starts { StartsOf (sheet_of given.now) starts.now }
    requires words { plan_words (sheet_of given.now) ≤ length out.old }
    requires ended { (a : Answer (List ℕ)) × EndedWith (sheet_of given.now) work.now end a }
    ensures { (a : Answer (List ℕ)) → EndedWith (sheet_of given.now) work.now end a → (result ≡ search_found a) × (out.new ≡ search_written a out.old) }
{
    let sheet = given.sheet;
    match end {
        End::Plan { node, made } => {
            let m = sheet.count();
            let last = sheet.horizon();
            nodes::write_paths(work, node.n, starts, sheet.width(), last, m, out);
            SearchAnswer::Plan {
                tasks: Record::at(work, node.n).tasks(),
                flowtime: node.cost,
                nodes: made,
                bound: node.cost,
            }
        }
        End::NoPlan { made } => SearchAnswer::NoPlan { nodes: made },
        End::Spent { bound } => SearchAnswer::Spent {
            nodes: sheet.limit(),
            bound,
        },
    }
}

// The search from the first assignment on: its root is node 0.
fn planned(
    given: &Given,
    starts: &[u16; 12],
    work: &mut [u32],
    spare: &mut [u32; 8192],
    tasks: [u8; 12],
    out: &mut [u16],
) -> SearchAnswer
    requires room { Room given.now work.old }
    requires starts { StartsOf (sheet_of given.now) starts.now }
    requires words { plan_words (sheet_of given.now) ≤ length out.old }
    requires by_index { (a : List ℕ) × (least_assignment (sheet_of given.now).count (table_of (sheet_of given.now)) ≡ Some a) × (tasks ≡ task_list a) }
    ensures { (result ≡ search_found (plan_for (sheet_of given.now))) × (out.new ≡ search_written (plan_for (sheet_of given.now)) out.old) }
{
    roots::first_root(work, given.sheet.count(), given.table, tasks);
    expand::complete_root(given, work, spare, 0);
    let end = turns::run(given, starts, work, spare);
    answered(given, starts, work, end, out)
}

// The search of an accepted sheet that has bytes, with room enough.
pub fn accepted(s: &[u8], work: &mut [u32], out: &mut [u16]) -> SearchAnswer
    requires { (cause s.now ≡ None) × (workspace_for (read s.now) ≤ length work.old) × (plan_words (read s.now) ≤ length out.old) }
    ensures { (result ≡ search_found (plan_for (read s.now))) × (out.new ≡ search_written (plan_for (read s.now)) out.old) }
{
    let sheet = AcceptedSheet::new(s);
    let mask = mask::mask_of(&sheet);
    let starts = starts_of(&sheet);
    let table = finishes::table(&sheet, &mask);
    let Some(first) = candidates::first(sheet.count(), &table) else {
        return SearchAnswer::NoPlan { nodes: 0 };
    };
    let mut spare = [0u32; 8192];
    let mut bounds = [0u8; 12 * BOUNDS];
    bounds_of(&sheet, &mask, &mut bounds);
    let given = Given {
        sheet: &sheet,
        mask: &mask,
        table: &table,
        bounds: &bounds,
    };
    planned(&given, &starts, work, &mut spare, first.tasks, out)
}
