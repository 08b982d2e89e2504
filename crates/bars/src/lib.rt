// Places of the padded grid, the ways from one to the next, and the constraints of one carrier in chains by time: for each time
// the last record, for each record the one before it. So a layer's constraints are found without a look at the others, be there
// 50 or 4096.
#![tactic(auto)]

ghost use Rattle.std.specs.Prelude.{◌≡◌, ℕ, Bool, true, cond, suc, ◌+◌, ◌*◌, ◌/◌, ◌<◌, ◌≤◌, length, eqb};
ghost use Rattle.deck.specs.Calls.{record_word, constraint_of, constraint_at, constraints_of};
ghost use Rattle.kernel.specs.Parts.{free_move, free_place, stay_after, stay_from};
ghost use Rattle.bars.specs.Padded.{pad_of, row_of, end_of};
ghost use Rattle.bars.specs.Ways.{number_of, number_if, is_back, opens_by, turn_of, move_by, way_back};
ghost use Rattle.bars.specs.Bars.{count_in, Timely, OnLayer, OnPadded, OnTime, Chained, moves, stands_on, ours, ours_at, way_of, slot_of, move_slot, place_slot, SlotIn, Cleared};

use deck::{Carrier, Constraint};

// The places of the padded grid: at most 34 rows of 34.
pub const CELLS: usize = 1156;

// A number for each place of the padded grid.
pub type Layer = [u8; 1156];

// Such a layer for each of the five ways, one after the other.
pub type Ways = [u8; 5780];

// The size of a grid: that of an accepted sheet. Kept: `expand::Made` has two numbers too, of another meaning.
#[derive(Clone, Copy, Debug, PartialEq, Eq)]
pub struct Size {
    pub width: usize,
    pub height: usize,
    pub ghost wide: { (1 ≤ width) × (width ≤ 32) },
    pub ghost high: { (1 ≤ height) × (height ≤ 32) },
}

impl Size {
    // The padded number of the place v.
    pub fn pad(self, v: usize) -> usize
        requires { v < 1024 }
        ensures { result ≡ pad_of self.width v }
    {
        v + 2 * (v / self.width) + self.width + 3
    }

    // The length of a padded row.
    pub fn row(self) -> usize
        ensures { result ≡ row_of self.width }
    {
        self.width + 2
    }

    // The padded place from which on there are only places past the grid.
    pub fn end(self) -> usize
        ensures { result ≡ end_of self.width self.height }
    {
        (self.width + 2) * (self.height + 1)
    }

    // How many words of four bytes the rows of the grid take.
    pub fn words(self) -> usize
        ensures { result ≡ ((self.width + 2) * self.height + 3) / 4 }
    {
        ((self.width + 2) * self.height + 3) / 4
    }
}

// The ways of a step, in the order of the places that they lead to.
#[derive(Clone, Copy, Debug, PartialEq, Eq)]
pub enum Way {
    Above,
    Left,
    Same,
    Right,
    Below,
}

impl Way {
    pub const ALL: [Way; 5] = [Way::Above, Way::Left, Way::Same, Way::Right, Way::Below];

    // How far the way leads in rows of this width, plus the width.
    pub fn turn(self, width: usize) -> usize
        requires { (1 ≤ width) × (width ≤ 34) }
        ensures { (result ≡ turn_of width (number_of self)) × (result ≤ 68) }
    {
        match self {
            Way::Above => 0,
            Way::Left => width - 1,
            Way::Same => width,
            Way::Right => width + 1,
            Way::Below => 2 * width,
        }
    }

    // The place to which the way leads from u, in rows of this width.
    pub fn from(self, width: usize, u: usize) -> usize
        requires { (1 ≤ width) × (width ≤ 34) × (u < 2048) × (width ≤ u + turn_of width (number_of self)) }
        ensures { result ≡ move_by width u (number_of self) }
    {
        u + self.turn(width) - width
    }

    // The way back from there.
    pub fn back(self) -> Way
        ensures { number_of result ≡ way_back (number_of self) }
    {
        match self {
            Way::Above => Way::Below,
            Way::Left => Way::Right,
            Way::Same => Way::Same,
            Way::Right => Way::Left,
            Way::Below => Way::Above,
        }
    }

    // The way by which a step from the padded place a comes to b, in padded rows of this length. Kept: five tests of two places; there is no
    // number of the way that could be matched on.
    fn between(row: usize, a: usize, b: usize) -> Option<Way>
        requires { (row ≤ 34) × (a < 1156) × (b < 1156) }
        ensures { number_if result ≡ way_of row a b }
    {
        if a + row == b {
            Some(Way::Above)
        } else if a + 1 == b {
            Some(Way::Left)
        } else if a == b {
            Some(Way::Same)
        } else if a == b + 1 {
            Some(Way::Right)
        } else if a == b + row {
            Some(Way::Below)
        } else {
            None
        }
    }

    // A place with this byte of the mask may be left by the way.
    pub fn opens(self, byte: u8) -> bool
        ensures { result ≡ opens_by byte (number_of self) }
    {
        (byte >> self as u8) % 2 == 1
    }
}

// The direction of a pass: forward in time, or backward with every move turned round.
#[derive(Clone, Copy, Debug, PartialEq, Eq)]
pub enum Direction {
    Forward,
    Backward,
}

impl Size {
    // Where the mask of the way from a to b stands.
    fn slot(self, a: usize, b: usize) -> Option<usize>
        requires { (a < 1156) × (b < 1156) }
        ensures { SlotIn 5780 (slot_of (row_of self.width) a b) result }
    {
        let way = Way::between(self.row(), a, b)?;
        Some(CELLS * way as usize + b)
    }

    // Where the mask of the way that the constraint bars in a pass of this direction stands. Kept: the direction is a field of a pass, so that
    // one proof serves both directions.
    fn move_slot(self, bar: Constraint, direction: Direction) -> Option<usize>
        requires { OnPadded self.width bar }
        ensures { SlotIn 5780 (move_slot self.width (is_back direction) bar) result }
    {
        match bar {
            Constraint::Place { .. } => None,
            Constraint::Move { u, v, .. } => match direction {
                Direction::Forward => self.slot(self.pad(u), self.pad(v)),
                Direction::Backward => self.slot(self.pad(v), self.pad(u)),
            },
        }
    }

    // The padded place that the constraint bars: the border's 0 of a move constraint.
    fn place_slot(self, bar: Constraint) -> usize
        requires { OnPadded self.width bar }
        ensures { (result ≡ place_slot self.width bar) × (result < 1156) }
    {
        match bar {
            Constraint::Place { u, .. } => self.pad(u),
            Constraint::Move { .. } => 0,
        }
    }
}

// The constraint that a record of five words says.
fn constraint_of(words: &[u16]) -> Constraint
    requires { length words.now ≡ 5 }
    ensures { (result ≡ constraint_at words.now 0) × OnTime result }
{
    let carrier = Carrier(usize::from(words[1]));
    let u = usize::from(words[2]);
    let t = usize::from(words[4]);
    if words[0] == 0 {
        Constraint::Place { carrier, u, t }
    } else {
        let v = usize::from(words[3]);
        Constraint::Move { carrier, u, v, t }
    }
}

// The constraint bars the move from u to v at its time.
// Kept: a match on the two constraints, here and in the slots: each is one definition, by the same cases.
fn bars_move(bar: Constraint, u: usize, v: usize) -> bool
    ensures { result ≡ moves u v bar }
{
    match bar {
        Constraint::Place { .. } => false,
        Constraint::Move { u: from, v: to, .. } => u == from && v == to,
    }
}

// The constraint bars the place v at its time.
fn bars_place(bar: Constraint, v: usize) -> bool
    ensures { result ≡ stands_on v bar }
{
    match bar {
        Constraint::Place { u, .. } => v == u,
        Constraint::Move { .. } => false,
    }
}

// The time after which the constraint lets the carrier stay on g.
fn stay_after(bar: Constraint, carrier: Carrier, g: usize) -> usize
    requires { OnTime bar }
    ensures { result ≡ stay_after carrier g bar }
{
    match bar {
        Constraint::Place { carrier: of, u, t } if of == carrier && u == g => t + 1,
        Constraint::Move {
            carrier: of,
            u,
            v,
            t,
        } if of == carrier && u == g && v == g => t + 1,
        _ => 0,
    }
}

// The constraint of the record k.
fn constraint_at(records: &[u16], k: usize) -> Constraint
    requires { (k < count_in records.now) × (count_in records.now ≤ 4096) }
    ensures { (result ≡ constraint_at records.now k) × OnTime result }
{
    constraint_of(&records[5 * k..5 * k + 5])
}

// The least time from which the carrier may stay on g, as far as the records say.
pub fn stay_from(records: &[u16], carrier: Carrier, g: usize) -> usize
    requires { count_in records.now ≤ 4096 }
    ensures { result ≡ stay_from carrier g (constraints_of records.now) }
{
    (0..records.len() / 5)
        .map(|k| stay_after(constraint_at(records, k), carrier, g))
        .max()
        .unwrap_or(0)
}

// Chains the constraints of the carrier: for each time one more than the number of the last record, and in the lent words for each
// record one more than that of the one before. Kept: an index, which is the record's number and its link; `chunks_exact` would leave the
// links to be zipped and the last words to be cut off.
pub fn chains_of(records: &[u16], carrier: Carrier, links: &mut [u32]) -> [u16; 256]
    requires timely { Timely records.now }
    requires few { count_in records.now ≤ 4096 }
    requires room { count_in records.now ≤ length links.old }
    ensures { Chained records.now carrier.0 result links.new }
{
    let mut heads = [0u16; 256];
    for k in 0..records.len() / 5 {
        let t = usize::from(records[5 * k + 4]);
        links[k] = u32::from(heads[t]);
        if usize::from(records[5 * k + 1]) == carrier.0 {
            heads[t] = (k + 1) as u16;
        }
    }
    heads
}

// The constraints of one carrier; heads and links may be any that are chained. Kept, here and in the methods that follow: chains of numbers, in an array of heads
// and in words that the caller lends: no heap, and up to 4096 records of five words each. Kept: t < 256 of each method: a pass would have
// to unpack such a type, count, and build it again at each step.
#[derive(Drop)]
pub struct Chains<'a> {
    pub records: &'a [u16],
    pub carrier: Carrier,
    pub heads: [u16; 256],
    pub links: &'a [u32],
    pub ghost few: { count_in records.now ≤ 4096 },
    pub ghost chained: { Chained records.now carrier.0 heads links.now },
}

impl<'a> Chains<'a> {
    ghost use Rattle.bars.specs.Rest.{rest_of};

    // The chains of the carrier's constraints: the links stand in the lent words.
    pub fn new(records: &'a [u16], carrier: Carrier, links: &'a mut [u32]) -> Chains<'a>
        requires timely { Timely records.now }
        requires few { count_in records.now ≤ 4096 }
        requires room { count_in records.now ≤ length links.old }
        ensures { (result.records.now ≡ records.now) × (result.carrier ≡ carrier) }
    {
        let heads = chains_of(records, carrier, links);
        Chains {
            records,
            carrier,
            heads,
            links,
        }
    }

    // The carrier's constraints at t, the last first.
    fn at(&'a self, t: usize) -> AtTime<'a>
        requires { t < 256 }
        ensures { rest_of result ≡ ours_at self.now.records.now self.now.carrier.0 t }
    {
        AtTime {
            chains: self,
            t,
            next: usize::from(self.heads[t]),
        }
    }

    // No constraint of the carrier's is one of t.
    pub fn is_free_at(&self, t: usize) -> bool
        requires { t < 256 }
        ensures { result ≡ true → (u v : ℕ) → free_move self.now.carrier (constraints_of self.now.records.now) t u v ≡ true }
    {
        self.heads[t] == 0
    }

    // The carrier may go from u to v at t, as far as its move constraints say.
    pub fn move_free(&self, t: usize, u: usize, v: usize) -> bool
        requires { t < 256 }
        ensures { result ≡ free_move self.now.carrier (constraints_of self.now.records.now) t u v }
    {
        self.at(t).all(|bar| !bars_move(bar, u, v))
    }

    // The carrier may be on v at t, as far as its place constraints say.
    pub fn place_free(&self, t: usize, v: usize) -> bool
        requires { t < 256 }
        ensures { result ≡ free_place self.now.carrier (constraints_of self.now.records.now) t v }
    {
        self.at(t).all(|bar| !bars_place(bar, v))
    }

    // Shuts the ways that the carrier's move constraints bar at t. Kept: the direction, as in `move_slot`.
    pub fn shut(&self, size: Size, t: usize, direction: Direction, ways: &mut Ways)
        requires { (t < 256) × OnLayer size.width self.now.records.now }
        ensures { Cleared (move_slot size.width (is_back direction)) (ours_at self.now.records.now self.now.carrier.0 t) ways.old ways.new }
    {
        for bar in self.at(t) {
            if let Some(x) = size.move_slot(bar, direction) {
                ways[x] = 0;
            }
        }
    }

    // Takes the labels off the places that the carrier's place constraints bar at t.
    pub fn clear(&self, size: Size, t: usize, layer: &mut Layer)
        requires { (t < 256) × OnLayer size.width self.now.records.now }
        ensures { Cleared (place_slot size.width) (ours_at self.now.records.now self.now.carrier.0 t) layer.old layer.new }
    {
        for bar in self.at(t) {
            layer[size.place_slot(bar)] = 0;
        }
    }
}

// The carrier's constraints at a time that are still to come.
#[derive(Drop)]
struct AtTime<'a> {
    chains: &'a Chains<'a>,
    t: usize,
    next: usize,
    ghost within: { next ≤ count_in chains.now.records.now },
    ghost own: { (k : ℕ) → next ≡ suc k → (record_word chains.now.records.now k 1 ≡ chains.now.carrier.0) × (record_word chains.now.records.now k 4 ≡ t) },
}

impl<'a> Iterator for AtTime<'a> {
    ghost use Rattle.std.specs.Iterator.{YieldsFirst, item_count};
    ghost use Rattle.bars.specs.Rest.{rest_of};

    type Item = Constraint;

    ghost next_gives = { YieldsFirst rest_of };

    ghost remaining = { item_count rest_of };

    fn next(&mut self) -> Option<Constraint> {
        let k = self.next.checked_sub(1)?;
        self.next = self.chains.links[k] as usize;
        Some(constraint_at(self.chains.records, k))
    }
}
