// The constraints of a path call, in lent words. Kept: five words to each, one constraint after the other, as the call takes them, from
// C too.

ghost use Rattle.std.specs.Prelude.{◌≡◌, [], ◌∷◌, ◌+◌, ◌*◌, ◌≤◌, length};
ghost use Rattle.records.specs.Record.{Small};

use deck::Constraint;

// The first `count` records; what stands past them is free.
#[derive(Drop)]
pub struct ConstraintList<'a> {
    pub words: &'a mut [u16],
    pub count: usize,
    ghost inside: { 5 * count ≤ length words.now },
}

impl<'a> ConstraintList<'a> {
    ghost use Rattle.nodes.specs.Listed.{recorded, Appended};

    pub fn new(words: &'a mut [u16]) -> Self
        ensures same_words { result.words.ghost_name ≡ words.entry.ghost_name }
        ensures lent { result.words.now ≡ words.old }
        ensures empty { result.count ≡ 0 }
    {
        ConstraintList { words, count: 0 }
    }

    pub fn clear(&mut self)
        ensures same_words { self.new.words.ghost_name ≡ self.old.words.ghost_name }
        ensures lent { self.new.words.now ≡ self.old.words.now }
        ensures empty { self.new.count ≡ 0 }
    {
        self.count = 0;
    }

    #[tactic(auto, using(crate::proofs::Gathers::words_more, crate::proofs::Gathers::constraints_more))]
    pub fn push(&mut self, c: Constraint)
        requires { (5 * self.old.count + 5 ≤ length self.old.words.now) × Small c }
        ensures { Appended self.old (c ∷ []) self.new }
    {
        let at = 5 * self.count;
        self.words[at..at + 5].copy_from_slice(&records::words_of(c));
        self.count += 1;
    }

    pub fn words(&self) -> &[u16]
        ensures { result.now ≡ recorded self.now }
    {
        &self.words[..5 * self.count]
    }
}
