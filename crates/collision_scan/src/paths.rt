// The paths of all carriers, with the scan for their first collision.
ghost use Rattle.std.specs.Prelude.{◌≡◌, true, suc, ◌+◌, ◌-◌, ◌*◌, ◌≤◌, ◌<◌, length};
ghost use Rattle.deck.specs.Lists.{pieces};
ghost use Rattle.deck.specs.Collisions.{first_collision};
ghost use Rattle.collision_scan.specs.Words.{place_in, meets, exchanges};
ghost use Rattle.collision_scan.specs.Marks.{Marked, Free, Passed, Calm};

use deck::{Carrier, Collision};

// The paths of `count` carriers, with the places from time 0 to `last`, one path after the other from the first word on.
#[derive(Clone, Copy)]
pub struct Paths<'a> {
    pub words: &'a [u16],
    pub count: usize,
    pub last: usize,
    ghost in_words: { count * suc last ≤ length words.now },
    ghost few_times: { last < 65536 },
}

impl Paths<'_> {
    // The place of a carrier at t.
    // Kept: the C interface lends the paths as one list, and this is the one place that counts its words.
    // Kept: carrier and time by their bounds here and below, which are those of this value's paths: a type of such numbers would have to
    // be tied to it.
    fn place(&self, c: Carrier, t: usize) -> usize
        requires { (c.0 < self.now.count) × (t ≤ self.now.last) }
        ensures { result ≡ place_in self.now.words.now (suc self.now.last) c.0 t }
    {
        usize::from(self.words[c.0 * (self.last + 1) + t])
    }

    // Both carriers are on one place at t.
    #[tactic(auto, unfolding(crate::specs::Words::meets))]
    fn meet(&self, i: Carrier, j: Carrier, t: usize) -> bool
        requires { (i.0 < self.now.count) × (j.0 < self.now.count) × (t ≤ self.now.last) }
        ensures { result ≡ meets self.now.words.now (suc self.now.last) i.0 j.0 t }
    {
        self.place(i, t) == self.place(j, t)
    }

    // Between t and t + 1 the carriers exchange two places. The first test is the one that most pairs fail.
    #[tactic(auto, unfolding(crate::specs::Words::exchanges))]
    fn exchange(&self, i: Carrier, j: Carrier, t: usize) -> bool
        requires { (i.0 < self.now.count) × (j.0 < self.now.count) × (t < self.now.last) }
        ensures { result ≡ exchanges self.now.words.now (suc self.now.last) i.0 j.0 t }
    {
        let v = self.place(i, t + 1);
        if v != self.place(j, t) {
            return false;
        }
        let u = self.place(i, t);
        u != v && u == self.place(j, t + 1)
    }

    // Whether carrier i enters a place with this mark at t without a collision: no carrier is there at t already, and one that was
    // there at the time s before does not take the place that i leaves. At time 0, where s is 0 too, a place without a mark seems to
    // be one of carrier 0's, so that places at time 0 are compared and no test of t is needed. The first two tests stand together, so
    // that the compiler makes one branch of them: whether a carrier waits is hard to predict.
    fn free(&self, i: Carrier, s: usize, t: usize, mark: usize) -> bool
        requires { (i.0 < self.now.count) × (self.now.count ≤ 16) × (s ≤ t) × (t ≤ self.now.last) }
        ensures { result ≡ true → Free self.now.words.now (suc self.now.last) i.0 s t mark }
    {
        if mark < 16 * t || mark == 16 * t + i.0 {
            return true;
        }
        let j = mark - 16 * t;
        j < self.count && self.place(Carrier(j), t) != self.place(i, s)
    }

    // Marks the places at t: 16 × (t + 1) and the carrier's number, so that all marks of a time are greater than those of the times
    // before, and than the 0 of a place that nobody was on. The answer is false if two carriers may collide at t, or by their steps to
    // it; the marks are those of the time before t, if there is one.
    // Kept: the flag is all that is asked of a time; where it is false, the marks say nothing, so that they are no second answer.
    fn mark_places(&self, t: usize, seen: &mut [u32; 1024]) -> bool
        requires in_bounds { (self.now.count ≤ 16) × (t ≤ self.now.last) × (length seen.old ≡ 1024) }
        requires marked { 0 < t → Marked self.now.words.now (suc self.now.last) self.now.count (t - 1) seen.old }
        ensures { result ≡ true → Passed self.now.words.now (suc self.now.last) self.now.count (t - 1) t seen.new }
    {
        let s = t.saturating_sub(1);
        for i in 0..self.count {
            let v = self.place(Carrier(i), t);
            if 1024 <= v || !self.free(Carrier(i), s, t, seen[v] as usize) {
                return false;
            }
            seen[v] = (16 * (t + 1) + i) as u32;
        }
        true
    }

    // A time up to `last` before which there is no collision. It is `last`, or the first collision's or one less, unless a place is
    // 1024 or more. A time costs one mark for each carrier, and not a test of all pairs.
    // Kept: each time's marks are those that the next one reads, so that a search of the times would write them from its closure.
    fn calm_until(&self) -> usize
        ensures { (result ≤ self.now.last) × Calm self.now.words.now (suc self.now.last) self.now.count result }
    {
        if 16 < self.count {
            return 0;
        }
        let mut seen = [0; 1024];
        for t in 0..self.last + 1 {
            if !self.mark_places(t, &mut seen) {
                return t.saturating_sub(1);
            }
        }
        self.last
    }

    // The first collision. Pairs are tested from the time on that the marks give.
    // Kept: nested loops over times and pairs, left by a label, are what document 01 asks for, so the loops of the two kinds stay apart.
    pub fn first_collision(&self) -> Option<Collision>
        ensures { result ≡ first_collision self.now.count self.now.last (pieces self.now.count (suc self.now.last) self.now.words.now) }
    {
        let m = self.count;
        let from = self.calm_until();
        'search: {
            for t in from..self.last + 1 {
                for i in 0..m {
                    for j in i + 1..m {
                        let (i, j) = (Carrier(i), Carrier(j));
                        if self.meet(i, j, t) {
                            let u = self.place(i, t);
                            break 'search Some(Collision::Place { t, i, j, u });
                        }
                    }
                }
                if t < self.last {
                    for i in 0..m {
                        for j in i + 1..m {
                            let (i, j) = (Carrier(i), Carrier(j));
                            if self.exchange(i, j, t) {
                                let u = self.place(i, t);
                                let v = self.place(i, t + 1);
                                break 'search Some(Collision::Move { t, i, j, u, v });
                            }
                        }
                    }
                }
            }
            None
        }
    }
}
