// A carrier in the pass of one task.
ghost use Rattle.std.specs.Prelude.{◌≡◌, ◌≢◌, ◌<◌, true, None};

use tables::BARRED;

// The padded place where the carrier starts, and the number of steps from there to the finish, once it is known.
#[derive(Clone, Copy, Debug, PartialEq, Eq)]
pub struct Entry {
    pub start: usize,
    steps: Option<u16>,
    ghost inside: { start < 1156 },
}

impl Entry {
    ghost use Rattle.finishes.specs.Entries.{marked, number_of};

    pub fn new(start: usize) -> Self
        requires { start < 1156 }
        ensures { (result.start ≡ start) × (result.steps ≡ None) }
    {
        Entry { start, steps: None }
    }

    // Enters k steps, where no number is known yet and the start has all n goals in the layer of k steps.
    pub fn mark(&mut self, label: u8, n: usize, k: usize)
        requires { k < 256 }
        ensures { (self.new.start ≡ self.old.start) × (self.new.steps ≡ marked n label k self.old.steps) }
    {
        if self.steps.is_none() && n < usize::from(label) {
            self.steps = Some(k as u16);
        }
    }

    pub fn is_known(&self) -> bool
        ensures { result ≡ true → self.now.steps ≢ None }
    {
        self.steps.is_some()
    }

    // The entry of the table. Kept: 65535 where no number is known, which is document 01's barred entry.
    pub fn number(&self) -> u16
        ensures { result ≡ number_of self.now.steps }
    {
        self.steps.unwrap_or(BARRED)
    }
}
