// The queue of the breadth-first search.
ghost use Rattle.std.specs.Prelude.{◌≡◌, false, suc, ◌+◌, ◌<◌, ◌≤◌, IfSome};

const PLACES: usize = 1024;

// Padded places in the order in which they were marked; those before `head` are taken off. A place past the last one that there is
// room for is left out, which makes a distance too great, and the test of the distances finds that. The array is lent, so that the
// compiler sees that a write to it leaves the two numbers as they are, and keeps these in registers.
#[derive(Drop)]
pub struct Queue<'a> {
    places: &'a mut [u16; PLACES],
    head: usize,
    tail: usize,
    ghost in_order: { (head ≤ tail) × (tail ≤ 1024) },
}

impl<'a> Queue<'a> {
    pub fn new(places: &'a mut [u16; PLACES], first: usize) -> Self
        requires { first < 1156 }
    {
        places[0] = first as u16;
        Queue {
            places,
            head: 0,
            tail: 1,
        }
    }

    pub fn is_full(&self) -> bool
        ensures { result ≡ false → self.now.tail < 1024 }
    {
        self.tail == PLACES
    }

    pub fn push(&mut self, place: usize)
        requires { (place < 1156) × (self.old.tail < 1024) }
        ensures { self.new.head ≡ self.old.head }
    {
        self.places[self.tail] = place as u16;
        self.tail += 1;
    }

    pub fn pop(&mut self) -> Option<usize>
        ensures { IfSome result (λ _. (self.new.head ≡ suc self.old.head) × (self.new.head ≤ 1024)) }
    {
        if self.head == self.tail {
            return None;
        }
        let place = self.places[self.head];
        self.head += 1;
        Some(usize::from(place))
    }
}
