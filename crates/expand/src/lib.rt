// Making the nodes of an expansion in the workspace: the root of the next assignment, the children of a node.
#![tactic(auto)]

ghost use Rattle.std.specs.Prelude.{◌≡◌, List, [], ◌∷◌, ℕ, suc, ◌+◌, ◌*◌, ◌<◌, ◌≤◌, length, take};
ghost use Rattle.deck.specs.Lists.{select, each};
ghost use Rattle.deck.specs.Sheet.{carrier};
ghost use Rattle.deck.specs.Search.{State, root_of, rest_after};
ghost use Rattle.deck.specs.Planner.{problem, bound_by};
ghost use Rattle.deck.specs.Calls.{path_found, path_written};
ghost use Rattle.deck.specs.declared.Constraint.{Constraint};
ghost use Rattle.meaning.specs.Making.{added, make_root, make_child, make_each};
ghost use Rattle.records.specs.Record.{HasRecord, Small, words_of};
ghost use Rattle.nodes.specs.Listed.{recorded};
ghost use Rattle.nodes.specs.Nodes.{node_at, constraints_at, binds};
ghost use Rattle.meaning.specs.Constraints.{InRange};
ghost use Rattle.nodes.specs.Stored.{Linked};
ghost use Rattle.scratch.specs.Front.{Front};
ghost use Rattle.expand.specs.Given.{sheet_of, Room};
ghost use Rattle.expand.specs.Held.{Held, Holding, Begun, Same, Grew, NodeAt, Nodes};
ghost use Rattle.expand.specs.Children.{Branch, child_task, child_path};

use deck::{Carrier, Constraint};
use nodes::ConstraintList;
use passes::Errand;
use records::Record;

mod given;

pub use given::Given;

// How many nodes are made, and the number of the latest root + 1. Kept: `bars::Size` has two numbers too, of another meaning.
#[derive(Clone, Copy, Debug, PartialEq, Eq)]
pub struct Made {
    pub nodes: usize,
    pub latest: usize,
}

// Kept, here and in the functions that follow: the lent words, the spare words and the list as parameters, and `Room` of the words. A struct
// over them would ask of each function to promise again which words it holds and how many, as with the records.
// Kept: `Same` and `Holding` of each step: they relate the words before and after it.

// THE ROOT

// Writes the least path without constraints of carrier i into the record of root n. Its finish is the table's entry.
fn root_path(given: &Given, work: &mut [u32], spare: &mut [u32; 8192], n: usize, i: Carrier)
    requires room { Room given.now work.old }
    requires carrier_in { i.0 < (sheet_of given.now).count }
    requires by_index { (a : List ℕ) × (st : State (List ℕ) Constraint) × Begun (sheet_of given.now) work.old n a i.0 st }
    ensures begun { (a : List ℕ) (st : State (List ℕ) Constraint) → Begun (sheet_of given.now) work.old n a i.0 st → Begun (sheet_of given.now) work.new n a (i.0 + 1) st }
    ensures same { Same (sheet_of given.now) work.old work.new n }
{
    let sheet = given.sheet;
    let last = sheet.horizon();
    let j = Record::at(work, n).task(i);
    let bound = usize::from(tables::entry(given.table, i, j));
    let mut path = [0u16; 256];
    let errand = Errand {
        sheet,
        mask: given.mask,
        carrier: i,
        task: j,
        records: &[],
    };
    let Some(finish) = scratch::least(&errand, bound, work, spare, &mut path, given.bounds) else {
        return;
    };
    records::put_path(work, n, i, finish, &path[..last + 1], sheet.width(), last);
}

// Writes the paths of the root whose record is begun as number `made`, and opens it.
pub fn complete_root(given: &Given, work: &mut [u32], spare: &mut [u32; 8192], made: usize)
    requires room { Room given.now work.old }
    requires by_index { (a : List ℕ) × (st : State (List ℕ) Constraint) × Begun (sheet_of given.now) work.old made a 0 st }
    ensures held { (a : List ℕ) (st : State (List ℕ) Constraint) → Begun (sheet_of given.now) work.old made a 0 st → Held (sheet_of given.now) work.new (made + 1) (made + 1) (added (root_of (problem (sheet_of given.now)) a ∷ []) st) }
    ensures same { Same (sheet_of given.now) work.old work.new made }
{
    for i in 0..given.sheet.count() {
        root_path(given, work, spare, made, Carrier(i));
    }
    nodes::open_root(work, given.sheet.limit(), made);
}

// Where node n is a root, makes the root of the next assignment, where one remains. None if no node is left for it.
fn next_root(
    given: &Given,
    work: &mut [u32],
    spare: &mut [u32; 8192],
    made: Made,
    n: usize,
) -> Option<Made>
    requires room { Room given.now work.old }
    requires below { n < made.nodes }
    requires held { Holding (sheet_of given.now) work.old made.nodes made.latest }
    ensures grew { (opened : Nodes) (rest : List (List ℕ)) (bound : ℕ) → Held (sheet_of given.now) work.old made.nodes made.latest (record { opened = opened; made = made.nodes; rest = rest }) → Grew (sheet_of given.now) work.new bound result (make_root (problem (sheet_of given.now)) (sheet_of given.now).limit bound (node_at (sheet_of given.now) work.old n).root rest (record { opened = opened; made = made.nodes; rest = rest_after (problem (sheet_of given.now)) (node_at (sheet_of given.now) work.old n).root rest })) }
    ensures same { Same (sheet_of given.now) work.old work.new made.nodes }
{
    if !Record::at(work, n).is_root() {
        return Some(made);
    }
    let m = given.sheet.count();
    let Some(chosen) = roots::next_slot(work, m, made.latest) else {
        return Some(made);
    };
    if made.nodes == given.sheet.limit() {
        return None;
    }
    roots::next_root(work, m, given.table, made.latest, made.nodes, chosen);
    complete_root(given, work, spare, made.nodes);
    Some(Made {
        nodes: made.nodes + 1,
        latest: made.nodes + 1,
    })
}

// CHILDREN

// Takes the constraints of the child of node n by c that bind its carrier into the list, in place of those that it has.
fn constraints(work: &[u32], n: usize, c: Constraint, list: &mut ConstraintList)
    requires { HasRecord work.now n × (5 * (n + 1) ≤ length list.old.words.now) × Linked work.now n × Small c }
    ensures { recorded list.new ≡ each words_of (select (binds (carrier (bound_by c))) (c ∷ constraints_at work.now n)) }
{
    let i = nodes::bound_by(c);
    list.clear();
    nodes::append(list, i, c);
    nodes::gather(work, n, i, list);
}

// The least path of the carrier that the constraint c binds, under c and the constraints of node n, over the first words of `out`.
fn child_path(
    given: &Given,
    work: &mut [u32],
    spare: &mut [u32; 8192],
    list: &mut [u16],
    n: usize,
    c: Constraint,
    out: &mut [u16],
) -> Option<usize>
    requires by_index { (made : ℕ) × (latest : ℕ) × Branch given.now work.old made latest n c }
    requires list_room { 20480 ≤ length list.old }
    requires room { suc (sheet_of given.now).horizon ≤ length out.old }
    ensures answer { result ≡ path_found (sheet_of given.now) (child_task (sheet_of given.now) work.old n c) (child_path (sheet_of given.now) work.old n c) }
    ensures written { out.new ≡ path_written (child_path (sheet_of given.now) work.old n c) out.old }
    ensures front { Front (sheet_of given.now).limit work.old work.new }
{
    let mut list = ConstraintList::new(list);
    constraints(work, n, c, &mut list);
    let i = nodes::bound_by(c);
    let parent = Record::at(work, n);
    let j = parent.task(i);
    let bound = parent.finish(i);
    let errand = Errand {
        sheet: given.sheet,
        mask: given.mask,
        carrier: i,
        task: j,
        records: list.words(),
    };
    scratch::least(&errand, bound, work, spare, out, given.bounds)
}

// Makes the child of node n by one more constraint, where its carrier has a path. None if no node is left for it.
fn make_child(
    given: &Given,
    work: &mut [u32],
    spare: &mut [u32; 8192],
    list: &mut [u16],
    made: Made,
    n: usize,
    c: Constraint,
) -> Option<Made>
    requires branch { Branch given.now work.old made.nodes made.latest n c }
    requires list_room { 20480 ≤ length list.old }
    ensures grew { (st : State (List ℕ) Constraint) (bound : ℕ) → Held (sheet_of given.now) work.old made.nodes made.latest st → Grew (sheet_of given.now) work.new bound result (make_child (problem (sheet_of given.now)) (sheet_of given.now).limit bound (node_at (sheet_of given.now) work.old n) c st) }
    ensures same { Same (sheet_of given.now) work.old work.new made.nodes }
{
    let w = given.sheet.width();
    let last = given.sheet.horizon();
    let limit = given.sheet.limit();
    let mut path = [0u16; 256];
    let Some(finish) = child_path(given, work, spare, list, n, c, &mut path) else {
        return Some(made); // A child without a path is not made.
    };
    if made.nodes == limit {
        return None;
    }
    nodes::make_child(
        work,
        limit,
        made.nodes,
        n,
        c,
        finish,
        &path[..last + 1],
        w,
        last,
    );
    Some(Made {
        nodes: made.nodes + 1,
        latest: made.latest,
    })
}

// Makes the nodes of the expansion of node n: the next root, the first child, the second child. None if a node was to be made and none
// is left.
pub fn expand(
    given: &Given,
    work: &mut [u32],
    spare: &mut [u32; 8192],
    list: &mut [u16],
    made: Made,
    n: usize,
    first: Constraint,
    second: Constraint,
) -> Option<Made>
    requires room { Room given.now work.old }
    requires list_room { 20480 ≤ length list.old }
    requires below { n < made.nodes }
    requires held { Holding (sheet_of given.now) work.old made.nodes made.latest }
    requires node_at { NodeAt (sheet_of given.now) work.old n × InRange (sheet_of given.now) first × InRange (sheet_of given.now) second }
    ensures grew { (opened : Nodes) (rest : List (List ℕ)) (bound : ℕ) → Held (sheet_of given.now) work.old made.nodes made.latest (record { opened = opened; made = made.nodes; rest = rest }) → Grew (sheet_of given.now) work.new bound result (make_each (problem (sheet_of given.now)) (sheet_of given.now).limit bound (node_at (sheet_of given.now) work.old n) (first, second) rest (record { opened = opened; made = made.nodes; rest = rest_after (problem (sheet_of given.now)) (node_at (sheet_of given.now) work.old n).root rest })) }
    ensures same { Same (sheet_of given.now) work.old work.new made.nodes }
{
    let rooted = next_root(given, work, spare, made, n)?;
    let once = make_child(given, work, spare, list, rooted, n, first)?;
    make_child(given, work, spare, list, once, n, second)
}
