// What the test programs share: the values of a stored input one after the other, and lines of numbers.
#![tactic(auto)]

ghost use Rattle.std.specs.Prelude.{◌≡◌, ◌≢◌, ◌↔◌, [], ℕ, ◌+◌, ◌-◌, ◌*◌, ◌/◌, ◌≤◌, ◌<◌, ◌∷◌, ◌++◌, IfSome, get_or, length, take};
ghost use Rattle.std.specs.Int.{from_le_bytes, w16, w32};

use std::fmt::Display;
use std::{fmt, io};

// A stored input: what is left of it.
#[derive(Drop)]
pub struct Stored<'a> {
    pub rest: &'a [u8],
}

impl<'a> Stored<'a> {
    // The next n bytes; none, and nothing is taken, where there are fewer.
    pub fn bytes(&mut self, n: usize) -> Option<&'a [u8]>
        ensures { IfSome result (λ bytes. (length bytes.now ≡ n) × (self.old.rest.now ≡ bytes.now ++ self.new.rest.now)) }
    {
        let (bytes, rest) = self.rest.split_at_checked(n)?;
        self.rest = rest;
        Some(bytes)
    }

    // The next byte.
    pub fn byte(&mut self) -> Option<u8>
        ensures { IfSome result (λ x. self.old.rest.now ≡ x ∷ self.new.rest.now) }
    {
        let (byte, rest) = self.rest.split_first()?;
        self.rest = rest;
        Some(*byte)
    }

    // The next N bytes as an array.
    pub fn array<const N: usize>(&mut self) -> Option<&'a [u8; N]>
        ensures { IfSome result (λ bytes. (length bytes.now ≡ N) × (self.old.rest.now ≡ bytes.now ++ self.new.rest.now)) }
    {
        let (bytes, rest) = self.rest.split_first_chunk::<N>()?;
        self.rest = rest;
        Some(bytes)
    }

    // The next two-byte value, low byte first.
    // Kept, here and in `double_word` beside it, of the same form: one function for both would need a trait over the two types.
    pub fn word(&mut self) -> Option<u16>
        ensures { IfSome result (λ x. (x ≡ from_le_bytes w16 (take 2 self.old.rest.now)) × (self.old.rest.now ≡ take 2 self.old.rest.now ++ self.new.rest.now) × (2 ≤ length self.old.rest.now)) }
    {
        let bytes = self.array::<2>()?;
        Some(u16::from_le_bytes(*bytes))
    }

    // The next four-byte value, low byte first.
    pub fn double_word(&mut self) -> Option<u32>
        ensures { IfSome result (λ x. (x ≡ from_le_bytes w32 (take 4 self.old.rest.now)) × (self.old.rest.now ≡ take 4 self.old.rest.now ++ self.new.rest.now) × (4 ≤ length self.old.rest.now)) }
    {
        let bytes = self.array::<4>()?;
        Some(u32::from_le_bytes(*bytes))
    }
}

// The byte k, 0 past the end. Kept: the form of that in `sheet_parts`, on which the input of a test is not to rest.
fn byte_at(bytes: &[u8], k: usize) -> usize
    ensures value { result ≡ get_or bytes.now k 0 }
    ensures upper_bound { result < 256 }
{
    bytes.get(k).map_or(0, |byte| usize::from(*byte))
}

// The two-byte value at k, low byte first; bytes past the end are 0.
pub fn number_at(bytes: &[u8], k: usize) -> usize
    ensures value { result ≡ get_or bytes.now k 0 + 256 * get_or bytes.now (k + 1) 0 }
    ensures upper_bound { result < 65536 }
{
    if bytes.len() <= k {
        return 0;
    }
    byte_at(bytes, k) + 256 * byte_at(bytes, k + 1)
}

// The first 4096 two-byte values, as `number_at` reads them. The length is said so that a caller can lend a part of the array.
pub fn words(bytes: &[u8]) -> [u16; 4096]
    ensures { 4096 ≡ length result }
{
    std::array::from_fn(|k| number_at(bytes, 2 * k) as u16)
}

// The two-byte values of the bytes, written to the start of `space`; none where there are more than fit.
pub fn read_words<'a>(bytes: &[u8], space: &'a mut [u16]) -> Option<&'a [u16]>
    ensures { IfSome result (λ words. length words.now ≡ length bytes.now / 2) }
{
    let words = space.get_mut(..bytes.len() / 2)?;
    for (word, pair) in words.iter_mut().zip(bytes.chunks_exact(2)) {
        *word = u16::from_le_bytes([pair[0], pair[1]]);
    }
    Some(words)
}

// The words up to the last that is not the filler: how far a lent output was written.
pub fn changed<'a>(words: &'a [u16], filler: u16) -> &'a [u16]
    ensures start { result.now ≡ take (length result.now) words.now }
    ensures filled { (k : ℕ) → length result.now ≤ k → k < length words.now → get_or words.now k 0 ≡ filler }
    ensures last { 0 < length result.now → get_or words.now (length result.now - 1) 0 ≢ filler }
{
    let last = words.iter().rposition(|word| *word != filler);
    &words[..last.map_or(0, |k| k + 1)]
}

// Numbers, each after a space.
#[derive(Drop)]
pub struct Spaced<'a, T>(pub &'a [T]);

impl<T: Display> Display for Spaced<'_, T> {
    fn fmt<W: fmt::Write>(&self, f: &mut fmt::Formatter<W>) -> fmt::Result {
        for number in self.0 {
            write!(f, " {number}")?;
        }
        Ok(())
    }
}

// One line of numbers.
pub fn print_line(rt: &impl Print, numbers: &[usize]) -> io::Result<()> {
    match numbers.split_first() {
        Some((first, others)) => println!(rt; "{first}{}", Spaced(others)),
        None => println!(rt; ""),
    }
}

// Words of an output after a colon, or nothing where there are none.
#[derive(Drop)]
pub struct Output<'a>(pub &'a [u16]);

impl Display for Output<'_> {
    fn fmt<W: fmt::Write>(&self, f: &mut fmt::Formatter<W>) -> fmt::Result {
        if self.0.is_empty() {
            return Ok(());
        }
        let words = Spaced(self.0);
        write!(f, ":{words}")
    }
}

// What a line says of a lent workspace that was to stay as it was filled.
pub fn workspace_change(work: &[u32], filler: u32) -> &'static str
    ensures { (result.now ≡ []) ↔ ((k : ℕ) → k < length work.now → get_or work.now k 0 ≡ filler) }
{
    if work.iter().all(|word| *word == filler) {
        ""
    } else {
        " workspace changed"
    }
}
