// The round of a job sheet, from its bytes to the text that the program deckround prints (document 01, "Rounds worked out").
// Bytes alone: nothing is read or printed here.
#![tactic(auto)]

ghost use Rattle.std.specs.Prelude.{◌≡◌, List, ◌++◌, ℕ, ◌≤◌, ◌<◌, length, take, drop};
ghost use Rattle.deck.specs.Calls.{SearchCall};
ghost use Rattle.deck.specs.Numbers.{search_numbers};
ghost use Rattle.deck.specs.Listing.{listing};
ghost use Rattle.round_text.specs.Longest.{longest};
ghost use Rattle.round_text.specs.LentWords.{LentWords};

use deck::{Cause, SearchAnswer};

// "It lends 16384 words of workspace and 3072 of output".
fn answer(s: &[u8], work: &mut [u32], out: &mut [u16]) -> Result<SearchAnswer, Cause>
    requires { (length work.old ≡ 16384) × (length out.old ≡ 3072) }
    ensures { SearchCall s.now work.old out.old (search_numbers result) work.new out.new }
{
    search::search(s, work, out)
}

// Kept, here and in `write`: `text` is a lent buffer, in fixed memory; its length is part of the promise.

// THE TEXT of any sheet, whatever the lent words held: the first r bytes are its listing, whole; the others stay. The text of a
// sheet longer than any accepted one is that of every sheet that begins with it, so that a reader may stop there. Workspace and output
// are as the search leaves them.
pub fn write(
    s: &[u8],
    work: &mut [u32; 16384],
    out: &mut [u16; 3072],
    text: &mut [u8; 20480],
) -> usize
    ensures listed { take result text.new ≡ listing s.now }
    ensures inside { (result ≤ length text.new) × (result ≡ length (take result text.new)) }
    ensures others { drop result text.new ≡ drop result text.old }
    ensures long { longest < length s.now → (rest : List ℕ) → take result text.new ≡ listing (s.now ++ rest) }
    ensures lent { LentWords s.now work.old out.old work.new out.new }
{
    let a = answer(s, work, out);
    listing::list(s, a, out, text)
}
