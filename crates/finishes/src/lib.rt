// The table of the finishes of the least paths without constraints. Without them the labels of the backward pass rest neither on the
// time nor on the carrier: one pass for each task serves all carriers, and the entry of a carrier is the first number of steps
// from the last goal at which its start has every goal. Two layers in turn are enough.
#![tactic(auto)]

ghost use Rattle.std.specs.Prelude.{◌≡◌, ◌≢◌, None, ℕ, suc, ◌+◌, ◌%◌, ◌<◌, ◌≤◌, length, get_or};
ghost use Rattle.deck.specs.Sheet.{read, count_of};
ghost use Rattle.deck.specs.Assignments.{barred, table_of};
ghost use Rattle.bars.specs.Padded.{MaskOf};
ghost use Rattle.passes.specs.Ready.{Sized};
ghost use Rattle.finishes.specs.Entries.{starts_in, steps_in, number_of, Starts, Unknown};
ghost use Rattle.finishes.specs.Serves.{Serving};
ghost use Rattle.prices.specs.Square.{cell, copied};

use bars::{CELLS, Chains, Direction, Layer, Size, Ways};
use deck::{Carrier, Task};
use layers::Pass;
use passes::Goals;
use sheet::AcceptedSheet;
use tables::BARRED;

mod entry;
mod sweep;

use entry::Entry;
use sweep::Sweep;

// The starts of the sheet's carriers, with no number of steps known. Kept: an index, which names the carrier in the sheet; `iter_mut` with
// `enumerate` would have the same number.
fn entries_of(sheet: &AcceptedSheet, size: Size) -> [Entry; 12]
    requires { Sized sheet.now.bytes.now size.width size.height }
    ensures starts { Starts sheet.now.bytes.now (starts_in result) }
    ensures unknown { Unknown (steps_in result) }
{
    let mut entries = [Entry::new(0); 12];
    for i in 0..sheet.count() {
        entries[i] = Entry::new(size.pad(sheet.start(Carrier(i))));
    }
    entries
}

// Puts the column of a task into a table of twelve to a row.
fn put_column(table: &mut [u16; 144], task: Task, entries: &[Entry])
    requires { (task.0 < 12) × (length entries.now ≤ 12) }
    ensures column { (i : ℕ) → i < length entries.now → cell table.new i task.0 ≡ number_of (get_or (steps_in entries.now) i None) }
    ensures others { (x : ℕ) → x % 12 ≢ task.0 → get_or table.new x 0 ≡ get_or table.old x 0 }
    ensures size { length table.new ≡ 144 }
{
    for (i, entry) in entries.iter().enumerate() {
        tables::put(table, Carrier(i), task, entry.number());
    }
}

// The table over the ways with these doors. Kept: barred entries at first, which are document 01's 65535.
fn table_by<'a>(
    sheet: &'a AcceptedSheet<'a>,
    size: Size,
    mask: &'a Layer,
    chains: &'a Chains<'a>,
    doors: Option<&'a Ways>,
) -> [u16; 144]
    requires { Serving sheet.now.bytes.now size mask.now chains.now doors }
    ensures { copied (count_of sheet.now.bytes.now) result ≡ table_of (read sheet.now.bytes.now) }
{
    let m = sheet.count();
    let starts = entries_of(sheet, size);
    let mut table = [BARRED; 144];
    for j in 0..m {
        let task = Task(j);
        let goals = Goals::of(sheet, task).turned();
        let sweep = Sweep {
            sheet: &*sheet,
            task,
            pass: Pass {
                size,
                chains: &*chains,
                mask: &*mask,
                doors,
                direction: Direction::Backward,
                goals: goals.all(),
            },
        };
        let mut column = starts;
        let entries = &mut column[..m];
        sweep.enter(entries);
        put_column(&mut table, task, entries);
    }
    table
}

// The working copy of the sheet's table.
pub fn table(sheet: &AcceptedSheet, mask: &Layer) -> [u16; 144]
    requires { MaskOf (read sheet.now.bytes.now) mask.now }
    ensures { copied (count_of sheet.now.bytes.now) result ≡ table_of (read sheet.now.bytes.now) }
{
    let size = passes::size_of(sheet);
    let mut links = [0u32; 0];
    let chains = Chains::new(&[], Carrier(0), &mut links);
    if layers::is_plain(mask, size) {
        return table_by(sheet, size, mask, &chains, None);
    }
    let mut doors = [0u8; 5780];
    layers::fill_doors(mask, size, Direction::Backward, &mut doors);
    table_by(sheet, size, mask, &chains, Some(&doors))
}
