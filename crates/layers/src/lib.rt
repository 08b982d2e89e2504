// Layers of labels on a padded grid: one byte for each padded place, the step from one layer to the next, and the layers that
// are kept, four bytes to a word.
#![tactic(auto)]

ghost use Rattle.std.specs.Prelude.{◌≡◌, true, cond, [], ◌+◌, ◌-◌, ◌*◌, ◌/◌, ◌<◌, ◌≤◌, length, get_or};
ghost use Rattle.std.specs.List.{fold};
ghost use Rattle.deck.specs.Calls.{constraints_of};
ghost use Rattle.bars.specs.Padded.{row_of, end_of};
ghost use Rattle.bars.specs.Ways.{number_of, is_back, opens_by};
ghost use Rattle.bars.specs.Bars.{OnLayer};
ghost use Rattle.layers.specs.Fill.{Filled};
ghost use Rattle.layers.specs.Spread.{spread_at, spread_by};
ghost use Rattle.layers.specs.Raise.{bumped, Raised, Indexes};
ghost use Rattle.layers.specs.Step.{farther, Plain, door_at, DoorsTo, Passable, bytes_of, Copies, Advanced, Stepped, Seeded};
ghost use Rattle.layers.specs.Packed.{FourAt, Kept, byte_in, kept_at, words_for};

use bars::{CELLS, Chains, Direction, Layer, Size, Way, Ways};

// One step without constraints: one loop without branches, which the compiler turns into vector code. Kept, here and in the loops that
// follow: an index, since the stretches of the layers lie at offsets of their own: five slices in four nested zips, no plainer; and the
// row and the end as numbers with their bounds, since a size would be unpacked before the loop.
fn spread(src: &Layer, mask: &Layer, row: usize, end: usize, dst: &mut Layer)
    requires { (1 ≤ row) × (row ≤ 34) × (row ≤ end) × (end ≤ 1122) }
    ensures { Filled row end (spread_at src.now mask.now row) dst.old dst.new }
{
    for p in row..end {
        let a = src[p - row].max(src[p - 1]);
        let b = src[p].max(src[p + 1]);
        dst[p] = a.max(b).max(src[p + row]).min(mask[p]);
    }
}

// One step where each way to a place has a mask of its own. Kept: an index, as in `spread`; the masks of the five ways lie one after
// the other, as `Ways` is laid out for the loop.
fn spread_ways(src: &Layer, ways: &Ways, row: usize, end: usize, dst: &mut Layer)
    requires { (1 ≤ row) × (row ≤ 34) × (row ≤ end) × (end ≤ 1122) }
    ensures { Filled row end (spread_by src.now ways.now row) dst.old dst.new }
{
    for p in row..end {
        let a = src[p - row].min(ways[p]);
        let b = src[p - 1].min(ways[CELLS + p]);
        let c = src[p].min(ways[2 * CELLS + p]);
        let d = src[p + 1].min(ways[3 * CELLS + p]);
        let e = src[p + row].min(ways[4 * CELLS + p]);
        dst[p] = a.max(b).max(c.max(d)).max(e);
    }
}

// The number b of a layer on goal k.
fn bump(b: u8, k: usize) -> u8
    requires { k < 8 }
    ensures { result ≡ bumped k b }
{
    if usize::from(b) == k + 1 { b + 1 } else { b }
}

// Raises the layer at the goals, in their order, so that equal goals in succession count at once.
pub fn raise(layer: &mut Layer, goals: &[usize])
    requires { (length goals.now ≤ 8) × Indexes goals.now (length goals.now) }
    ensures { Raised goals.now (length goals.now) layer.old layer.new }
{
    for (k, goal) in goals.iter().enumerate() {
        let p = *goal;
        layer[p] = bump(layer[p], k);
    }
}

fn four(layer: &Layer, p: usize) -> u32
    requires { p + 3 < 1156 }
    ensures { FourAt layer.now p result }
{
    u32::from_le_bytes([layer[p], layer[p + 1], layer[p + 2], layer[p + 3]])
}

// Keeps the bytes of a layer from `from` on in words from `at` on, four bytes to a word. Kept: words at a product: they are lent, in
// fixed memory.
pub fn keep_from(layer: &Layer, from: usize, many: usize, words: &mut [u32], at: usize)
    requires { (from + 4 * many ≤ 1156) × (at + many ≤ length words.old) }
    ensures { Kept layer.now from at many words.old words.new }
{
    for k in 0..many {
        words[at + k] = four(layer, from + 4 * k);
    }
}

// Keeps the rows of the layer of time t in their words.
pub fn keep(layer: &Layer, size: Size, words: &mut [u32], t: usize)
    requires { t * words_for size.width size.height + words_for size.width size.height ≤ length words.old }
    ensures { Kept layer.now (row_of size.width) (t * words_for size.width size.height) (words_for size.width size.height) words.old words.new }
{
    let many = size.words();
    keep_from(layer, size.row(), many, words, t * many);
}

// The byte k of a word. By a shift: the trace asks for bytes that a branch on k could not foresee.
fn byte_of(x: u32, k: usize) -> u32
    requires { k < 4 }
    ensures { (result ≡ byte_in x k) × (result < 256) }
{
    (x >> (8 * k)) % 256
}

// The byte k of the bytes that are kept from the word `at` on. Kept: the place beside the words: the clause speaks of the whole list, of
// which a caller has the layer of each time.
pub fn kept(work: &[u32], at: usize, k: usize) -> usize
    requires { (k < 4096) × (at + 1024 < 18446744073709551615) × (at + k / 4 < length work.now) }
    ensures { (result ≡ kept_at work.now at k) × (result < 256) }
{
    byte_of(work[at + k / 4], k % 4) as usize
}

// The greatest of what the bytes are away from 0 or from 255, whichever is nearer: without a branch on them, so that the compiler turns
// it into vector code.
fn farthest(bytes: &[u8]) -> u8
    ensures { result ≡ fold farther 0 bytes.now }
{
    bytes.iter().fold(0, |most, b| most.max((*b).min(255 - *b)))
}

// No place from the first on, and before the end, is a lane.
pub fn plain(mask: &Layer, first: usize, end: usize) -> bool
    requires { (first ≤ end) × (end ≤ 1156) }
    ensures { result ≡ true → Plain mask.now first end }
{
    let worst = farthest(&mask[first..end]);
    worst == 0
}

// No place of the grid is a lane.
pub fn is_plain(mask: &Layer, size: Size) -> bool
    ensures { result ≡ true → Plain mask.now (row_of size.width) (end_of size.width size.height) }
{
    plain(mask, size.row(), size.end())
}

// The byte of a place where the byte m has the bit of the way, and else 0. Kept, here and in the functions that follow: the way is the
// subject of the question, and switches between no two steps.
fn through(byte: u8, m: u8, way: Way) -> u8
    ensures { result ≡ cond (opens_by m (number_of way)) byte 0 }
{
    if way.opens(m) { byte } else { 0 }
}

// The bytes of one way, from `at` on, where the place that is left lies `turn` - `row` further and is left by the way: one loop
// without branches, which the compiler turns into vector code. Kept: an index, as in `spread`.
fn fill_way(
    mask: &Layer,
    row: usize,
    end: usize,
    turn: usize,
    way: Way,
    at: usize,
    doors: &mut Ways,
)
    requires { (row ≤ 34) × (row ≤ end) × (end ≤ 1122) × (turn ≤ 2 * row) × (at ≤ 4624) }
    ensures { Filled (at + row) (at + end) (λ q. cond (opens_by (get_or mask.now (q - at + turn - row) 0) (number_of way)) (get_or mask.now (q - at) 0) 0) doors.old doors.new }
{
    for p in row..end {
        doors[at + p] = through(mask[p], mask[p + turn - row], way);
    }
}

// The bytes of the way. Kept: the direction is a field of a pass, so that one proof serves both directions.
fn way_doors(mask: &Layer, row: usize, end: usize, direction: Direction, way: Way, doors: &mut Ways)
    requires { (1 ≤ row) × (row ≤ 34) × (row ≤ end) × (end ≤ 1122) }
    ensures { Filled (1156 * number_of way + row) (1156 * number_of way + end) (λ q. door_at mask.now row (is_back direction) (number_of way) (q - 1156 * number_of way)) doors.old doors.new }
{
    let at = CELLS * way as usize;
    match direction {
        Direction::Forward => fill_way(mask, row, end, way.turn(row), way.back(), at, doors),
        Direction::Backward => fill_way(mask, row, end, row, way, at, doors),
    }
}

// Fills in, for each of the five ways, the bytes by which labels pass to the places from the row on and before the end, forward or
// backward, where some places are lanes. In place, since a copy would cost a short path a measurable part of its time.
pub fn fill_doors_between(
    mask: &Layer,
    row: usize,
    end: usize,
    direction: Direction,
    doors: &mut Ways,
)
    requires { (1 ≤ row) × (row ≤ 34) × (row ≤ end) × (end ≤ 1122) }
    ensures { DoorsTo 5 mask.now row end (is_back direction) doors.new }
{
    for way in Way::ALL {
        way_doors(mask, row, end, direction, way, doors);
    }
}

// The same of the places of the grid.
pub fn fill_doors(mask: &Layer, size: Size, direction: Direction, doors: &mut Ways)
    ensures { DoorsTo 5 mask.now (row_of size.width) (end_of size.width size.height) (is_back direction) doors.new }
{
    fill_doors_between(mask, size.row(), size.end(), direction, doors);
}

// The bytes of the five ways where there are no doors: from above, left, the place itself, right, below. Kept: no `chunks_exact_mut`,
// whose contract says nothing of what is written through it.
fn copies_of(mask: &Layer) -> Ways
    ensures { (length result ≡ 5780) × Copies mask.now [] result }
{
    let mut ways = [0u8; 5780];
    for k in 0..5usize {
        let at = CELLS * k;
        ways[at..at + CELLS].copy_from_slice(mask);
    }
    ways
}

// The first layer: a walk stands on the padded place p alone, where no constraint bars it at `on`.
pub fn seed(chains: &Chains, size: Size, goals: &[usize], on: usize, p: usize) -> Layer
    requires { (on < 256) × (p < 1156) × (length goals.now ≤ 8) × Indexes goals.now (length goals.now) × OnLayer size.width chains.now.records.now }
    ensures { Seeded size.width chains.now.carrier (constraints_of chains.now.records.now) on goals.now (length goals.now) p result }
{
    let mut layer = [0u8; CELLS];
    layer[p] = 1;
    chains.clear(size, on, &mut layer);
    raise(&mut layer, goals);
    layer
}

// What a pass over layers goes by: the constraints of the carrier, the mask of the grid, where some places are lanes the bytes of the
// ways, the direction, and the goals as padded places, backward in reverse.
#[derive(Clone, Copy)]
pub struct Pass<'a> {
    pub size: Size,
    pub chains: &'a Chains<'a>,
    pub mask: &'a Layer,
    pub doors: Option<&'a Ways>,
    pub direction: Direction,
    pub goals: &'a [usize],
    pub ghost passable: { Passable mask.now size.width size.height (is_back direction) doors },
    pub ghost on_grid: { OnLayer size.width chains.now.records.now },
    pub ghost few_goals: { length goals.now ≤ 8 },
    pub ghost goals_on: { Indexes goals.now (length goals.now) },
}

impl<'a> Pass<'a> {
    // The bytes of the five ways, none of them shut.
    fn ways(&self) -> Ways
        ensures { Copies self.now.mask.now (bytes_of self.now.doors) result }
    {
        match self.doors {
            Some(doors) => *doors,
            None => copies_of(self.mask),
        }
    }

    // The labels one step on, or back: over all ways where the carrier has no constraint at t, and else over those that are left.
    fn advance(&self, t: usize, src: &Layer, dst: &mut Layer)
        requires { t < 256 }
        ensures { Advanced self.now.size.width self.now.size.height self.now.mask.now self.now.chains.now.carrier (constraints_of self.now.chains.now.records.now) t (is_back self.now.direction) src.now dst.old dst.new }
    {
        let row = self.size.row();
        let end = self.size.end();
        if self.chains.is_free_at(t) {
            match self.doors {
                Some(doors) => spread_ways(src, doors, row, end, dst),
                None => spread(src, self.mask, row, end, dst),
            }
        } else {
            let mut ways = self.ways();
            self.chains.shut(self.size, t, self.direction, &mut ways);
            spread_ways(src, &ways, row, end, dst);
        }
    }

    // One step of a layer: the labels go one step at t, those on places barred at `on` are taken away, and the others are raised
    // by the goals. Backward the moves are turned round.
    pub fn step(&self, t: usize, on: usize, src: &Layer, dst: &mut Layer)
        requires { (t < 256) × (on < 256) }
        ensures { Stepped self.now.size.width self.now.size.height self.now.mask.now self.now.chains.now.carrier (constraints_of self.now.chains.now.records.now) t on (is_back self.now.direction) self.now.goals.now (length self.now.goals.now) src.now dst.old dst.new }
    {
        self.advance(t, src, dst);
        self.chains.clear(self.size, on, dst);
        raise(dst, self.goals);
    }
}
