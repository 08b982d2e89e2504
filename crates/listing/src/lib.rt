// The text that the program deckround prints (document 01, "Rounds worked out"), written into a lent buffer.
// Bytes alone: nothing is read or printed here. Where the buffer is too short the text is cut off at its end.
#![tactic(auto)]

mod text;

ghost use Rattle.std.specs.Prelude.{◌≡◌, ◌++◌, ◌+◌, ◌<◌, ◌≤◌, ℕ, length, get_or, take, drop, None};
ghost use Rattle.deck.specs.Sheet.{read, sheet_cause};
ghost use Rattle.deck.specs.Listing.{decimal, text as bytes_of, carrier_line, listing_for};
ghost use Rattle.listing.specs.Wrote.{Wrote};
ghost use Rattle.listing.specs.Appends.{Appends};
ghost use Rattle.listing.specs.Listed.{Listable, listed, Fits, lines_of, plan_listed};

use deck::{Carrier, Cause, SearchAnswer, Task};
use text::Text;

// Kept: here and below the text is written piece by piece, and not by `write!`, as the struct `Text` says.

// The line of one carrier: its number, its task, the finish of its path and the places.
fn carrier(text: &mut Text, s: &[u8], i: Carrier, j: Task, path: &[u16])
    ensures { Appends text.old (carrier_line (read s.now) i.0 j.0 path.now) text.new }
{
    text.field(b"carrier ", i.0);
    text.field(b" task ", j.0);
    text.field(b" finish ", path_check::finish_of(s, j, path));
    text.push(b": ");
    text.spaced(path);
    text.push(b"\n");
}

// The n words from `from` on, as far as there are any.
fn piece(paths: &[u16], from: usize, n: usize) -> &[u16]
    requires { from + n < 65536 }
    ensures { result.now ≡ take n (drop from paths.now) }
{
    let first = from.min(paths.len());
    let end = (from + n).min(paths.len());
    &paths[first..end]
}

// The lines of the carriers, whose paths stand one after the other.
fn carriers(text: &mut Text, s: &[u8], tasks: &[u8; 12], paths: &[u16])
    requires { sheet_cause s.now ≡ None }
    ensures { Appends text.old (lines_of s.now tasks.now paths.now) text.new }
{
    let n = sheet::horizon(s) + 1;
    // Kept: a number, which is the carrier's: no list is walked.
    for i in 0..sheet::count(s) {
        let j = tables::task_of(tasks, Carrier(i));
        carrier(text, s, Carrier(i), j, piece(paths, i * n, n));
    }
}

// The first line of a plan, and the line of a search that is spent: a number and how many nodes were made.
fn head(text: &mut Text, label: &[u8], n: usize, nodes: usize)
    ensures { Appends text.old (label.now ++ decimal n ++ bytes_of " nodes " ++ decimal nodes ++ bytes_of "\n") text.new }
{
    text.field(label, n);
    text.field(b" nodes ", nodes);
    text.push(b"\n");
}

// A line of one number.
fn line(text: &mut Text, label: &[u8], n: usize)
    ensures { Appends text.old (label.now ++ decimal n ++ bytes_of "\n") text.new }
{
    text.field(label, n);
    text.push(b"\n");
}

// The listing of a plan; nothing where the sheet is not accepted.
fn plan(text: &mut Text, s: &[u8], tasks: &[u8; 12], flowtime: usize, nodes: usize, paths: &[u16])
    ensures wrote { Appends text.old (plan_listed s.now tasks.now flowtime nodes paths.now) text.new }
    ensures numbers { (i : ℕ) → get_or tasks.now i 0 < 256 }
{
    if sheet::check(s).is_ok() {
        head(text, b"plan ", flowtime, nodes);
        carriers(text, s, tasks, paths);
    }
}

// The listing of what a search came to, `paths` being the words of its output.
fn found(text: &mut Text, s: &[u8], answer: SearchAnswer, paths: &[u16])
    ensures wrote { Appends text.old (listed s.now (Ok answer) paths.now) text.new }
    ensures numbers { Fits (Ok answer) }
{
    match answer {
        SearchAnswer::Plan {
            tasks,
            flowtime,
            nodes,
            ..
        } => plan(text, s, &tasks, flowtime, nodes, paths),
        SearchAnswer::NoPlan { nodes } => line(text, b"none nodes ", nodes),
        SearchAnswer::Spent { nodes, bound } => head(text, b"spent ", bound, nodes),
    }
}

// The listing of the answer to the sheet s, `paths` being the words of its output.
fn listing(text: &mut Text, s: &[u8], answer: Result<SearchAnswer, Cause>, paths: &[u16])
    ensures wrote { Appends text.old (listed s.now answer paths.now) text.new }
    ensures numbers { Fits answer }
{
    match answer {
        Ok(answer) => found(text, s, answer, paths),
        Err(cause) => line(text, b"refused ", usize::from(u8::from(cause))),
    }
}

// Writes the listing of the answer to the sheet s, `paths` being the words of its output, and gives how many bytes were written.
// A text of 20480 bytes is not cut off, whatever the answer and the words are.
pub fn list(s: &[u8], answer: Result<SearchAnswer, Cause>, paths: &[u16], text: &mut [u8]) -> usize
    ensures wrote { Wrote text.old 0 (listed s.now answer paths.now) text.new result }
    ensures whole { Listable s.now answer → 20480 ≤ length text.old → take result text.new ≡ listing_for (read s.now) answer paths.now }
{
    let mut text = Text::new(text);
    listing(&mut text, s, answer, paths);
    text.written
}
