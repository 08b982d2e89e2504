// A path in twenty words: a step is a digit of base 5, thirteen to a word, the first step of a word the lowest digit.
// All twenty words are written, so that two packings of one path are equal word by word.
#![tactic(auto)]

ghost use Rattle.std.specs.Prelude.{◌≡◌, ◌+◌, ◌*◌, ◌-◌, ◌<◌, ◌≤◌, min, length};
ghost use Rattle.pack.specs.Pack.{tab, digit_of, step_at, value, pack_of, place_from, unpack_of};

// How many steps a word holds.
const STEPS: usize = 13;

// Kept, here and in each contract that follows: w ≤ 32: a type for a width would only be taken apart again.

// The digit of the step from p to q on a grid of width w: wait, up, left, right, down.
#[tactic(auto, unfolding(crate::specs::Pack::digit_of))]
fn digit(w: usize, p: u16, q: u16) -> u32
    requires { w ≤ 32 }
    ensures { result ≡ digit_of w p q }
{
    let (p, q) = (usize::from(p), usize::from(q));
    if q == p {
        0
    } else if q + w == p {
        1
    } else if q + 1 == p {
        2
    } else if q == p + 1 {
        3
    } else {
        4
    }
}

// The digit of the step from time t to t + 1.
// Kept: the path and a time, as `step_at` has them; a slice of two places would have to be said to be those of t.
#[tactic(auto, unfolding(crate::specs::Pack::step_at))]
fn step(path: &[u16], w: usize, t: usize) -> u32
    requires { (t + 1 < length path.now) × (w ≤ 32) }
    ensures { result ≡ step_at w path.now t }
{
    digit(w, path[t], path[t + 1])
}

// How many of the `last` steps are in the word that begins with step `from`.
fn steps_in(last: usize, from: usize) -> usize
    ensures { result ≡ min STEPS (last - from) }
{
    STEPS.min(last.saturating_sub(from))
}

// The word of the n steps from `from` on.
// Kept: no `fold`, whose closure would repeat that the digits so far fit a word; and times by numbers, since `from` may lie past a
// short path's end.
fn chunk(path: &[u16], w: usize, from: usize, n: usize) -> u32
    requires { (n ≤ 13) × (from < 65536) × ((n ≡ 0 → ⊥) → from + n < length path.now) × (w ≤ 32) }
    ensures { result ≡ value (step_at w path.now) from n }
{
    let mut word: u32 = 0;
    for t in (from..from + n).rev() {
        word = word * 5 + step(path, w, t);
    }
    word
}

// The twenty words of a path on a grid of width w.
pub fn pack(path: &[u16], w: usize, out: &mut [u32])
    requires { (0 < length path.now) × (w ≤ 32) × (length out.old ≡ 20) }
    ensures { out.new ≡ pack_of w (length path.now - 1) path.now }
{
    let last = path.len() - 1;
    for (k, word) in out.iter_mut().enumerate() {
        let from = STEPS * k;
        *word = chunk(path, w, from, steps_in(last, from));
    }
}

// The places that the steps of one word lead to from p, one for each element of `out`: the last of them. A step adds one of
// five differences modulo 65536, so that there is no branch.
fn steps(word: u32, w: usize, p: u16, out: &mut [u16]) -> u16
    requires { w ≤ 32 }
    ensures { (result ≡ place_from w p word (length out.old)) × (out.new ≡ tab (λ j. place_from w p word (j + 1)) (length out.old)) }
{
    let differences = [0, 65536 - w, 65535, 1, w];
    let mut rest = word;
    let mut q = p;
    for place in out.iter_mut() {
        let sum = usize::from(q) + differences[(rest % 5) as usize];
        q = (sum % 65536) as u16;
        rest /= 5;
        *place = q;
    }
    q
}

// The same for any word. A word of waits, as all words past a path's finish are, is filled without a look at its digits.
fn stretch(word: u32, w: usize, p: u16, out: &mut [u16]) -> u16
    requires { w ≤ 32 }
    ensures { (result ≡ place_from w p word (length out.old)) × (out.new ≡ tab (λ j. place_from w p word (j + 1)) (length out.old)) }
{
    if word == 0 {
        out.fill(p);
        return p;
    }
    steps(word, w, p, out)
}

// The path of twenty words, one place for each element of `out`.
pub fn unpack(words: &[u32], w: usize, start: u16, out: &mut [u16])
    requires { (length words.now ≡ 20) × (w ≤ 32) × (0 < length out.old) × (length out.old ≤ 260) }
    ensures { out.new ≡ unpack_of w (length out.old - 1) words.now start }
{
    let last = out.len() - 1;
    out[0] = start;
    let mut p = start;
    let mut at = 0;
    // Kept: no `chunks_mut`, whose contract says nothing of what is written through it.
    for word in &words[..last.div_ceil(STEPS)] {
        let n = steps_in(last, at);
        p = stretch(*word, w, p, &mut out[at + 1..at + 1 + n]);
        at += n;
    }
}
