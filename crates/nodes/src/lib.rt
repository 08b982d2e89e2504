// The nodes of the search in the lent workspace, as the nodes of the search's definition: the choice of the next one, the
// constraints along its links, its paths as places, and the making of roots and children.
#![tactic(auto)]

ghost use Rattle.std.specs.Prelude.{◌≡◌, List, ℕ, ◌+◌, ◌*◌, ◌<◌, ◌≤◌, ◌%◌, [], ◌∷◌, length};
ghost use Rattle.deck.specs.Lists.{sum, flat, select};
ghost use Rattle.deck.specs.Sheet.{Sheet};
ghost use Rattle.deck.specs.Search.{root_of, child_node};
ghost use Rattle.deck.specs.Planner.{problem, bound_by};
ghost use Rattle.deck.specs.Calls.{overwrite};
ghost use Rattle.records.specs.Record.{fields_at, HasRecord, HasNodes, finishes_in, Small, with_key, closed_key};
ghost use Rattle.nodes.specs.Listed.{Appended};
ghost use Rattle.nodes.specs.Nodes.{LeastTo, FirstOf, block_end, Lows, Cheapest, InRange, binds, binding_at, paths_in, node_at};
ghost use Rattle.nodes.specs.Stored.{Fits, Linked, Stored, Added, ChildOf, RootSoFar};

mod constraint_list;

pub use constraint_list::ConstraintList;
use deck::{Carrier, Constraint};
use records::{Origin, Record};

// How many nodes a block has.
const BLOCK: usize = 64;

// The open node to take next, with its cost. Kept: `roots::Choice` and `expand::Made` are two numbers too, of other meanings.
#[derive(Clone, Copy, Debug, PartialEq, Eq)]
pub struct Open {
    pub n: usize,
    pub cost: usize,
}

// THE CHOICE

// Kept, here and in the calls on keys that follow: words, limit, nodes made and least keys as parameters: others write the words between these calls, so no type owns both.

// The least of the keys: one pass without a branch.
#[tactic(auto, using(crate::proofs::Picks::least_more))]
fn least(keys: &[u32]) -> u32
    ensures { LeastTo keys.now (length keys.now) result }
{
    let mut best = records::CLOSED_KEY;
    for key in keys {
        best = best.min(*key);
    }
    best
}

fn first_of(keys: &[u32], v: u32) -> usize
    ensures { FirstOf keys.now v result }
{
    keys.iter().position(|key| *key == v).unwrap_or(keys.len())
}

fn block_end(b: usize, made: usize) -> usize
    requires { b < 64 }
    ensures { result ≡ block_end b made }
{
    made.min(BLOCK * b + BLOCK)
}

// The open node of least cost, then of least number: the first block with the least key, and its first node with that key. The
// least keys of the blocks are lent, so that a choice reads 64 of them and one block, however many nodes there are.
pub fn cheapest(work: &[u32], limit: usize, made: usize, lows: &[u32; 64]) -> Option<Open>
    requires made_le_limit { (made ≤ limit) × HasNodes limit work.now }
    requires lows { Lows limit work.now made lows.now }
    ensures inside { InRange made result }
    ensures chosen { (d : Sheet) → Fits d → Stored d limit work.now made → Cheapest d limit work.now made result }
{
    let v = least(lows);
    if v == records::CLOSED_KEY {
        return None;
    }
    let b = first_of(lows, v);
    let from = BLOCK * b;
    let keys = records::keys(work, limit, from, block_end(b, made));
    Some(Open {
        n: from + first_of(keys, v),
        cost: v as usize,
    })
}

// Closes node n; the least key of its block is computed again.
pub fn close(work: &mut [u32], limit: usize, made: usize, n: usize, lows: &mut [u32; 64])
    requires n_lt_made { (n < made) × (made ≤ limit) × HasNodes limit work.old }
    requires lows_2 { Lows limit work.old made lows.old }
    ensures closed { work.new ≡ with_key limit n closed_key work.old }
    ensures lows { Lows limit work.new made lows.new }
{
    records::close(work, limit, n);
    let b = n / BLOCK;
    lows[b] = least(records::keys(work, limit, BLOCK * b, block_end(b, made)));
}

// Takes the keys of the new nodes from..made into the least keys of their blocks.
pub fn enter(work: &[u32], limit: usize, from: usize, made: usize, lows: &mut [u32; 64])
    requires from_le_made { (from ≤ made) × (made ≤ limit) × HasNodes limit work.now }
    requires lows { Lows limit work.now from lows.old }
    ensures { Lows limit work.now made lows.new }
{
    for (k, key) in records::keys(work, limit, from, made).iter().enumerate() {
        let b = (from + k) / BLOCK;
        lows[b] = lows[b].min(*key);
    }
}

// CONSTRAINTS ALONG THE LINKS

// The carrier that a constraint binds. Kept: a match, which is the definition's own.
pub fn bound_by(c: Constraint) -> Carrier
    ensures { result.0 ≡ bound_by c }
{
    match c {
        Constraint::Place { carrier, .. } | Constraint::Move { carrier, .. } => carrier,
    }
}

// Takes a constraint into the list if it binds carrier i.
pub fn append(list: &mut ConstraintList, i: Carrier, c: Constraint)
    requires { (5 * list.old.count + 5 ≤ length list.old.words.now) × Small c }
    ensures appended { Appended list.old (select (binds i) (c ∷ [])) list.new }
    ensures few { list.new.count ≤ list.old.count + 1 }
{
    if bound_by(c) == i {
        list.push(c);
    }
}

// Takes the constraints of node n that bind carrier i into the list. Kept: a loop along the links; the closure of `successors` would
// repeat what `Record::at` requires, and that the links lead to earlier nodes.
pub fn gather(work: &[u32], n: usize, i: Carrier, list: &mut ConstraintList)
    requires n_in_bounds { HasRecord work.now n × (5 * (list.old.count + n) ≤ length list.old.words.now) }
    requires linked { Linked work.now n }
    ensures appended { Appended list.old (binding_at work.now n i) list.new }
    ensures few { list.new.count ≤ list.old.count + n }
{
    let mut at = n;
    while let Some(origin) = Record::at(work, at).origin() {
        append(list, i, origin.constraint);
        at = origin.parent;
    }
}

// PATHS AS PLACES

// Writes the paths of node n, carrier by carrier, over the first words of `out`. Kept: m beside `starts`: each caller would have to
// cut its starts, and prove what the shorter list has.
pub fn write_paths(
    work: &[u32],
    n: usize,
    starts: &[u16],
    w: usize,
    last: usize,
    m: usize,
    out: &mut [u16],
)
    requires { HasRecord work.now n × (m ≤ 12) × (m ≤ length starts.now) × (w ≤ 32) × (last < 260) × (m * (last + 1) ≤ length out.old) }
    ensures { out.new ≡ overwrite (flat (paths_in w last starts.now m (fields_at work.now n))) out.old }
{
    let record = Record::at(work, n);
    let size = last + 1;
    // Kept: no `chunks_mut`, whose contract says nothing of what is written through it.
    for (i, start) in starts[..m].iter().enumerate() {
        let at = i * size;
        let path = record.path(Carrier(i));
        pack::unpack(path, w, *start, &mut out[at..at + size]);
    }
}

// MAKING NODES

// Opens node n: its key is its cost.
fn open_node(work: &mut [u32], limit: usize, n: usize)
    requires { (n < limit) × HasNodes limit work.old }
    ensures { work.new ≡ with_key limit n (sum (finishes_in (fields_at work.old n)) % 4294967296) work.old }
{
    let cost = Record::at(work, n).cost();
    records::set_key(work, limit, n, (cost % 4294967296) as u32);
}

// Makes the root whose record is written the next node.
pub fn open_root(work: &mut [u32], limit: usize, made: usize)
    requires { (made < limit) × HasNodes limit work.old }
    ensures added { (d : Sheet) (a : List ℕ) → Fits d → Stored d limit work.old made → RootSoFar d work.old made a d.count → Added d limit work.old work.new made (root_of (problem d) a) }
    ensures by_index { (k : ℕ) → k < limit → fields_at work.new k ≡ fields_at work.old k }
{
    open_node(work, limit, made);
}

// What makes a child: a constraint, and the carrier whose path is new.
#[derive(Clone, Copy, Debug, PartialEq, Eq)]
pub struct Child {
    pub carrier: Carrier,
    pub constraint: Constraint,
}

// Makes the next node: the child of node n by one more constraint, with a new path of the carrier. Kept: `last` beside the path: the
// packed path is stated by it.
pub fn make_child_of(
    work: &mut [u32],
    limit: usize,
    made: usize,
    n: usize,
    child: Child,
    finish: usize,
    path: &[u16],
    w: usize,
    last: usize,
)
    requires n_lt_made { (n < made) × (made < limit) × (child.carrier.0 < 12) × Small child.constraint × HasNodes limit work.old }
    requires finish_bound { (finish < 4294967296) × (length path.now ≡ last + 1) × (w ≤ 32) }
    ensures { (d : Sheet) → d.width ≡ w → d.horizon ≡ last → ChildOf d limit work.old made n child.carrier.0 child.constraint finish path.now → Added d limit work.old work.new made (child_node (problem d) (node_at d work.old n) child.constraint path.now) }
{
    let origin = Origin {
        parent: n,
        constraint: child.constraint,
    };
    records::copy_record(work, n, made);
    records::set_origin(work, made, origin);
    records::put_path(work, made, child.carrier, finish, path, w, last);
    open_node(work, limit, made);
}

// The same of the carrier that the constraint binds.
pub fn make_child(
    work: &mut [u32],
    limit: usize,
    made: usize,
    n: usize,
    constraint: Constraint,
    finish: usize,
    path: &[u16],
    w: usize,
    last: usize,
)
    requires n_lt_made { (n < made) × (made < limit) × (bound_by constraint < 12) × Small constraint × HasNodes limit work.old }
    requires finish_bound { (finish < 4294967296) × (length path.now ≡ last + 1) × (w ≤ 32) }
    ensures { (d : Sheet) → d.width ≡ w → d.horizon ≡ last → ChildOf d limit work.old made n (bound_by constraint) constraint finish path.now → Added d limit work.old work.new made (child_node (problem d) (node_at d work.old n) constraint path.now) }
{
    let child = Child {
        carrier: bound_by(constraint),
        constraint,
    };
    make_child_of(work, limit, made, n, child, finish, path, w, last);
}
