// The records of the search's nodes in the lent workspace: record n at words 512 n to 512 n + 511, and past all `limit` records
// a key for each node. Every field is read and written here and nowhere else.
// Kept: fields at offsets, and nodes by their numbers: the workspace is words that C lends, in fixed memory.
// Kept: the lent words, `HasRecord` and `HasNodes`. A struct over the words proves, but each function that takes it must also ensure
// that it holds the same words afterwards, and the clauses grow.
// Kept: `j < 12` and `Small`: a type for a slot's number or for a small constraint would be made by each caller, to be taken apart here.
#![tactic(auto)]

ghost use Rattle.std.specs.Prelude.{◌≡◌, [], ◌∷◌, ◌+◌, ◌-◌, ◌*◌, ◌<◌, ◌≤◌, length, get_or, set, sum as std_sum};
ghost use Rattle.deck.specs.Lists.{sum};
ghost use Rattle.deck.specs.Sheet.{task};
ghost use Rattle.pack.specs.Pack.{pack_of};
ghost use Rattle.records.specs.Cut.{part};
ghost use Rattle.records.specs.Record.{fields, fields_at, HasRecord, HasNodes, root_in, constraint_in, head_in, origin_in, tasks_in, finishes_in, row_in, closed_in, kept_at, slot_at, slot_in, tournament_in, packed_in, bytes, words_of, Small, with_path, with_slot, slot_words, root_fields, closed_key, with_key, Wrote};

use candidates::Candidate;
use deck::{Carrier, Constraint, Task};
use std::marker::Model;

// Where the fields of a record begin, as `layout` in specs/Record.antt has them.
const SIZE: usize = 512;

const CONSTRAINT: usize = 1;

const TASKS: usize = 6;

const FINISHES: usize = 18;

const ROW: usize = 30;

const TOURNAMENT: usize = 31;

const SLOTS: usize = 32;

const PATHS: usize = 200;

const CLOSED: usize = 440;

// How many words a slot and a packed path have.
const SLOT_SIZE: usize = 14;

const PATH_SIZE: usize = 20;

// The key of a closed node; no cost is as much.
pub const CLOSED_KEY: u32 = 65535;

// What a record says of where its node comes from: its link, 0 for a root and else its parent's number and one, and its own
// constraint, which of a root has no meaning.
#[derive(Clone, Copy, Debug, PartialEq, Eq)]
pub struct NodeHead {
    pub link: usize,
    pub constraint: Constraint,
}

// Where a child comes from: its parent's number, and its own constraint.
#[derive(Clone, Copy, Debug, PartialEq, Eq)]
pub struct Origin {
    pub parent: usize,
    pub constraint: Constraint,
}

// The five 16-bit words of a constraint.
pub fn words_of(c: Constraint) -> [u16; 5]
    requires { Small c }
    ensures { result ≡ words_of c }
{
    match c {
        Constraint::Place { carrier, u, t } => [0, carrier.0 as u16, u as u16, 0, t as u16],
        Constraint::Move { carrier, u, v, t } => {
            [1, carrier.0 as u16, u as u16, v as u16, t as u16]
        }
    }
}

// The same as words.
fn constraint_words(c: Constraint) -> [u32; 5]
    requires { Small c }
    ensures { result ≡ words_of c }
{
    words_of(c).map(u32::from)
}

// The constraint of five words.
fn constraint_of(words: &[u32]) -> Constraint
    requires { length words.now ≡ 5 }
    ensures { result ≡ constraint_in words.now }
{
    let carrier = Carrier(words[1] as usize);
    let u = words[2] as usize;
    let t = words[4] as usize;
    if words[0] == 0 {
        return Constraint::Place { carrier, u, t };
    }
    let v = words[3] as usize;
    Constraint::Move { carrier, u, v, t }
}

// Twelve bytes as words, and twelve words as bytes.
fn as_words(bytes: [u8; 12]) -> [u32; 12]
    ensures { result ≡ bytes }
{
    bytes.map(u32::from)
}

fn bytes_of(words: &[u32]) -> [u8; 12]
    requires { length words.now ≡ 12 }
    ensures { result ≡ bytes words.now }
{
    std::array::from_fn(|k| (words[k] % 256) as u8)
}

fn total(words: &[u32]) -> usize
    requires { length words.now ≤ 4096 }
    ensures { result ≡ std_sum words.now }
{
    words.iter().map(|x| *x as usize).sum()
}

// READING

// The record of a node, to read. Clauses see the list of its fields.
#[derive(Drop)]
pub struct Record<'a> {
    words: &'a [u32],
}

impl<'a> Model for Record<'a> {
    ghost use Rattle.std.specs.Prelude.{List, ℕ, ◌≡◌, length};
    ghost use Rattle.records.specs.Record.{fields};

    ghost Value = { List (List ℕ) };

    ghost view = { λ r. fields r.words.now };

    ghost invariant = { λ r. length r.words.now ≡ 512 };
}

impl<'a> Record<'a> {
    // The record of node n.
    pub fn at(work: &'a [u32], n: usize) -> Record<'a>
        requires { HasRecord work.now n }
        ensures { result ≡ fields_at work.now n }
    {
        let from = SIZE * n;
        Record {
            words: &work[from..from + SIZE],
        }
    }

    pub fn is_root(&self) -> bool
        ensures { result ≡ root_in self.now }
    {
        self.words[0] == 0
    }

    // Of a root too.
    pub fn head(&self) -> NodeHead
        ensures { result ≡ head_in self.now }
    {
        NodeHead {
            link: self.words[0] as usize,
            constraint: constraint_of(&self.words[CONSTRAINT..CONSTRAINT + 5]),
        }
    }

    // A root has none.
    pub fn origin(&self) -> Option<Origin>
        ensures { result ≡ origin_in self.now }
    {
        let head = self.head();
        let parent = head.link.checked_sub(1)?;
        Some(Origin {
            parent,
            constraint: head.constraint,
        })
    }

    pub fn task(&self, i: Carrier) -> Task
        requires { i.0 < 12 }
        ensures { result ≡ task (get_or (tasks_in self.now) i.0 0) }
    {
        Task(self.words[TASKS + i.0] as usize)
    }

    pub fn finish(&self, i: Carrier) -> usize
        requires { i.0 < 12 }
        ensures { result ≡ get_or (finishes_in self.now) i.0 0 }
    {
        self.words[FINISHES + i.0] as usize
    }

    pub fn tasks(&self) -> [u8; 12]
        ensures { result ≡ bytes (tasks_in self.now) }
    {
        bytes_of(&self.words[TASKS..TASKS + 12])
    }

    // The sum of the finishes.
    pub fn cost(&self) -> usize
        ensures { result ≡ sum (finishes_in self.now) }
    {
        total(&self.words[FINISHES..FINISHES + 12])
    }

    // The packed path of a carrier.
    pub fn path(&self, i: Carrier) -> &'a [u32]
        requires { i.0 < 12 }
        ensures words { result.now ≡ packed_in self.now i.0 }
        ensures long { length result.now ≡ 20 }
    {
        let from = PATHS + PATH_SIZE * i.0;
        &self.words[from..from + PATH_SIZE]
    }

    // Of a root: the row and the closed tasks of its part of the assignments.
    // Kept: `row` beside `tournament`, and `closed` beside `tasks`: each clause names its field.
    pub fn row(&self) -> usize
        ensures { result ≡ row_in self.now }
    {
        self.words[ROW] as usize
    }

    pub fn closed(&self) -> [u8; 12]
        ensures { result ≡ bytes (closed_in self.now) }
    {
        bytes_of(&self.words[CLOSED..CLOSED + 12])
    }

    // The word of the tournament of the slots.
    pub fn tournament(&self) -> usize
        ensures { result ≡ tournament_in self.now }
    {
        self.words[TOURNAMENT] as usize
    }

    // The assignment of a slot, or that of a slot that was emptied.
    pub fn kept(&self, j: usize) -> Candidate
        requires { j < 12 }
        ensures { result ≡ kept_at self.now j }
    {
        let at = SLOTS + SLOT_SIZE * j;
        Candidate {
            sum: self.words[at + 1],
            tasks: bytes_of(&self.words[at + 2..at + SLOT_SIZE]),
        }
    }

    // An assignment that remains.
    pub fn slot(&self, j: usize) -> Option<Candidate>
        requires { j < 12 }
        ensures { result ≡ slot_at self.now j }
    {
        if self.words[SLOTS + SLOT_SIZE * j] == 1 {
            Some(self.kept(j))
        } else {
            None
        }
    }
}

// The keys of the nodes from..until.
pub fn keys(work: &[u32], limit: usize, from: usize, until: usize) -> &[u32]
    requires { (from ≤ until) × (until ≤ 4096) × HasNodes limit work.now }
    ensures { result.now ≡ part (512 * limit + from) (until - from) work.now }
{
    let keys = SIZE * limit;
    &work[keys + from..keys + until]
}

// WRITING

// Writes the link and the constraint of record n.
pub fn set_head(work: &mut [u32], n: usize, head: NodeHead)
    requires { HasRecord work.old n × (head.link < 4294967296) × Small head.constraint }
    ensures { Wrote work.old work.new n (set (set (fields_at work.old n) 0 (head.link ∷ [])) 1 (words_of head.constraint)) }
{
    let at = SIZE * n;
    let from = at + CONSTRAINT;
    work[at] = head.link as u32;
    work[from..from + 5].copy_from_slice(&constraint_words(head.constraint));
}

// Writes where node n comes from.
pub fn set_origin(work: &mut [u32], n: usize, origin: Origin)
    requires { HasRecord work.old n × (origin.parent + 1 < 4294967296) × Small origin.constraint }
    ensures { Wrote work.old work.new n (set (set (fields_at work.old n) 0 ((origin.parent + 1) ∷ [])) 1 (words_of origin.constraint)) }
{
    let head = NodeHead {
        link: origin.parent + 1,
        constraint: origin.constraint,
    };
    set_head(work, n, head);
}

pub fn set_tournament(work: &mut [u32], n: usize, v: usize)
    requires { HasRecord work.old n × (v < 4294967296) }
    ensures { Wrote work.old work.new n (set (fields_at work.old n) 5 (v ∷ [])) }
{
    work[SIZE * n + TOURNAMENT] = v as u32;
}

// Copies record `from` to a later record.
pub fn copy_record(work: &mut [u32], from: usize, to: usize)
    requires { (from < to) × HasRecord work.old to }
    ensures { Wrote work.old work.new to (fields_at work.old from) }
{
    let at = SIZE * from;
    work.copy_within(at..at + SIZE, SIZE * to);
}

// Writes the finish and the packed path of a carrier.
// Kept: `last` beside the path, since the clause speaks of the packed path by it.
pub fn put_path(
    work: &mut [u32],
    n: usize,
    i: Carrier,
    finish: usize,
    path: &[u16],
    w: usize,
    last: usize,
)
    requires { HasRecord work.old n × (i.0 < 12) × (finish < 4294967296) × (length path.now ≡ last + 1) × (w ≤ 32) }
    ensures { Wrote work.old work.new n (with_path (fields_at work.old n) i.0 finish (pack_of w last path.now)) }
{
    let at = SIZE * n;
    let from = at + (PATHS + PATH_SIZE * i.0);
    work[at + (FINISHES + i.0)] = finish as u32;
    pack::pack(path, w, &mut work[from..from + PATH_SIZE]);
}

// Writes the record of a root without its paths: every slot is empty, every finish 0.
pub fn begin_root(work: &mut [u32], n: usize, tasks: [u8; 12], row: usize, closed: [u8; 12])
    requires { HasRecord work.old n × (row < 4294967296) }
    ensures { Wrote work.old work.new n (root_fields tasks row closed) }
{
    let at = SIZE * n;
    root_record(&mut work[at..at + SIZE], tasks, row, closed);
}

fn root_record(words: &mut [u32], tasks: [u8; 12], row: usize, closed: [u8; 12])
    requires { (length words.old ≡ 512) × (row < 4294967296) }
    ensures { fields words.new ≡ root_fields tasks row closed }
{
    words.fill(0);
    words[TASKS..TASKS + 12].copy_from_slice(&as_words(tasks));
    words[CLOSED..CLOSED + 12].copy_from_slice(&as_words(closed));
    words[ROW] = row as u32;
}

// Fills slot j of a root, or empties it: an empty slot keeps its sum and its list, and loses its flag.
pub fn set_slot(work: &mut [u32], n: usize, j: usize, slot: Option<Candidate>)
    requires { HasRecord work.old n × (j < 12) }
    ensures { Wrote work.old work.new n (with_slot (fields_at work.old n) j (slot_words slot (slot_in (fields_at work.old n) j))) }
{
    let at = SIZE * n + (SLOTS + SLOT_SIZE * j);
    put_slot(&mut work[at..at + SLOT_SIZE], slot);
}

fn put_slot(words: &mut [u32], slot: Option<Candidate>)
    requires { length words.old ≡ 14 }
    ensures { words.new ≡ slot_words slot words.old }
{
    let Some(slot) = slot else {
        words[0] = 0;
        return;
    };
    let tasks = as_words(slot.tasks);
    words[0] = 1;
    words[1] = slot.sum;
    words[2..SLOT_SIZE].copy_from_slice(&tasks);
}

// Sets the key of node n.
pub fn set_key(work: &mut [u32], limit: usize, n: usize, key: u32)
    requires { 512 * limit + n < length work.old }
    ensures { work.new ≡ with_key limit n key work.old }
{
    work[SIZE * limit + n] = key;
}

pub fn close(work: &mut [u32], limit: usize, n: usize)
    requires { 512 * limit + n < length work.old }
    ensures { work.new ≡ with_key limit n closed_key work.old }
{
    set_key(work, limit, n, CLOSED_KEY);
}
