// The breadth-first search on a padded grid, the test of its distances, and the way from there to the table of bounds.
ghost use Rattle.std.specs.Prelude.{◌≡◌, true, ℕ, suc, ◌+◌, ◌-◌, ◌*◌, ◌<◌, ◌≤◌, length, get_or};
ghost use Rattle.bars.specs.Padded.{pad_of, row_of, end_of};
ghost use Rattle.layers.specs.Fill.{Filled};
ghost use Rattle.bounds.specs.Graded.{Even, EvenBy, LayerBounds};

use super::queue::Queue;
use bars::{CELLS, Layer, Size, Way};

// A sheet's padded grid: its mask, and the size of the grid without the border.
#[derive(Clone, Copy)]
pub struct Grid<'a> {
    pub mask: &'a Layer,
    pub size: Size,
}

impl Grid<'_> {
    // Gives the padded place p the distance d, where it has a greater one and may be left by the way, and puts it into the queue. A
    // blocked place has 0. Kept: the way is the subject of the question, and the mask's byte stands at the place's own index.
    fn mark(&self, dist: &mut Layer, queue: &mut Queue, p: usize, way: Way, d: u8)
        requires { p < 1156 }
        ensures { queue.new.head ≡ queue.old.head }
    {
        if d < dist[p] && way.opens(self.mask[p]) && !queue.is_full() {
            dist[p] = d;
            queue.push(p);
        }
    }

    // Marks the places around p from which a step leads to p.
    fn visit(&self, dist: &mut Layer, queue: &mut Queue, p: usize)
        ensures { queue.new.head ≡ queue.old.head }
    {
        let row = self.size.row();
        if p < row || CELLS - row <= p {
            return;
        }
        let d = dist[p].saturating_add(1);
        self.mark(dist, queue, p - row, Way::Below, d);
        self.mark(dist, queue, p - 1, Way::Right, d);
        self.mark(dist, queue, p + 1, Way::Left, d);
        self.mark(dist, queue, p + row, Way::Above, d);
    }

    // The distances before any place is marked: 255 for a free place, 0 for a blocked one.
    fn unmarked(&self) -> Layer {
        let mut dist = [0; CELLS];
        for (d, m) in dist[..self.size.end()].iter_mut().zip(self.mask) {
            *d = if *m == 0 { 0 } else { 255 };
        }
        dist
    }

    // The distances to the goal, counted from `base` on: 255 for 255 and more, 0 at a blocked place.
    fn distances(&self, goal: usize, base: u8) -> Layer
        requires { goal < 1156 }
    {
        let mut dist = self.unmarked();
        dist[goal] = base;
        let mut places = [0; 1024];
        let mut queue = Queue::new(&mut places, goal);
        while let Some(p) = queue.pop() {
            self.visit(&mut dist, &mut queue, p);
        }
        dist
    }

    // No number around a free place is above one more than its own, where `counts` says what counts of a number, with the mask's byte
    // of its place and the way that leads from it: one loop without branches, which the compiler turns into vector code. Kept: an index, since
    // the five stretches of both lists lie at offsets of their own.
    fn even_by<F: Fn(u8, u8, Way) -> u8>(&self, dist: &Layer, counts: F) -> bool
        requires { F.IsAlwaysCallable counts }
        ensures { result ≡ true → EvenBy (F.post counts) dist.now self.now.mask.now (row_of self.now.size.width) (end_of self.now.size.width self.now.size.height) }
    {
        let row = self.size.row();
        let mask = self.mask;
        let mut worst = 0u8;
        for p in row..self.size.end() {
            let above = counts(dist[p - row], mask[p - row], Way::Below);
            let left = counts(dist[p - 1], mask[p - 1], Way::Right);
            let right = counts(dist[p + 1], mask[p + 1], Way::Left);
            let below = counts(dist[p + row], mask[p + row], Way::Above);
            let most = above.max(left).max(right.max(below));
            worst = worst.max(most.saturating_sub(dist[p]).saturating_sub(1).min(mask[p]));
        }
        worst == 0
    }

    // The test: the numbers fall by at most one with each step. Without lanes, every number around a place may count.
    fn even(&self, dist: &Layer) -> bool
        ensures { result ≡ true → Even dist.now self.now.mask.now (row_of self.now.size.width) (end_of self.now.size.width self.now.size.height) }
    {
        self.even_by(dist, |d, _, _| d)
            || self.even_by(dist, |d, m, way| if way.opens(m) { d } else { 0 })
    }

    // Copies a layer to the table from the index `at` on, by place. Kept: rows at a product: the table is lent, in fixed memory.
    pub fn store(&self, layer: &Layer, at: usize, table: &mut [u8])
        requires { at + self.now.size.width * self.now.size.height ≤ length table.old }
        ensures { Filled at (at + self.now.size.width * self.now.size.height) (λ p. get_or layer.now (pad_of self.now.size.width (p - at)) 0) table.old table.new }
    {
        let w = self.size.width;
        for y in 0..self.size.height {
            let from = y * (w + 2) + w + 3;
            let to = at + y * w;
            table[to..to + w].copy_from_slice(&layer[from..from + w]);
        }
    }

    // The bounds of one label: the steps to its goal, and `base` more.
    pub fn layer(&self, goal: usize, base: u8) -> Layer
        requires { goal < 1156 }
        ensures { LayerBounds self.now.mask.now self.now.size.width self.now.size.height goal base result }
    {
        let mut layer = self.distances(goal, base);
        if base < layer[goal] || !self.even(&layer) {
            layer = [0; CELLS];
        }
        layer
    }
}
