// Where a walk is, and what it remembers.
ghost use Rattle.std.specs.Prelude.{◌≡◌, ◌<◌, ◌≤◌, replicate, set, get_or, eqb};
ghost use Rattle.first_walk.specs.Slots.{slot_of, code_of};

// A place at a time, with its padded number and how many goals are visited there.
#[derive(Clone, Copy, Debug, PartialEq, Eq)]
pub struct Spot {
    pub time: usize,
    pub place: usize,
    pub padded: usize,
    pub visited: usize,
    ghost small: { (time < 256) × (place < 1024) × (padded < 1156) × (visited ≤ 8) },
}

impl Spot {
    pub fn new(time: usize, place: usize, padded: usize, visited: usize) -> Self
        requires { (time < 256) × (place < 1024) × (padded < 1156) × (visited ≤ 8) }
        ensures { (result.time ≡ time) × (result.place ≡ place) × (result.padded ≡ padded) × (result.visited ≡ visited) }
    {
        Spot {
            time,
            place,
            padded,
            visited,
        }
    }

    // Where it is remembered that the spot failed.
    fn slot(self) -> usize
        ensures { (result ≡ slot_of self.time self.place) × (result < 1024) }
    {
        (31 * self.time + self.place) % 1024
    }

    // Its number there.
    fn code(self) -> u32
        ensures { result ≡ code_of self.time self.place self.visited }
    {
        (1 + self.place + 1024 * self.visited + 16384 * self.time) as u32
    }
}

// Spots that failed: of those with one slot, the last.
#[derive(Drop)]
pub struct Failed {
    pub codes: [u32; 1024],
}

impl Failed {
    pub fn new() -> Self
        ensures { result.codes ≡ replicate 1024 0 }
    {
        Failed { codes: [0; 1024] }
    }

    pub fn contains(&self, spot: Spot) -> bool
        ensures { result ≡ eqb (get_or self.now.codes (slot_of spot.time spot.place) 0) (code_of spot.time spot.place spot.visited) }
    {
        self.codes[spot.slot()] == spot.code()
    }

    pub fn insert(&mut self, spot: Spot)
        ensures { self.new.codes ≡ set self.old.codes (slot_of spot.time spot.place) (code_of spot.time spot.place spot.visited) }
    {
        self.codes[spot.slot()] = spot.code();
    }
}
