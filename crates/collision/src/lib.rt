// The first collision of m paths up to time H: least t, place before move, then least pair i < j.
#![tactic(auto)]

ghost use Rattle.std.specs.Prelude.{◌≡◌};
ghost use Rattle.deck.specs.Calls.{collision_call};
ghost use Rattle.deck.specs.Numbers.{collision_numbers};
ghost use Rattle.collision.specs.Meant.{Meant};

use deck::{Cause, Collision};

// Document 01's call, for any m, h and words.
pub fn first_collision(m: u8, h: u8, paths: &[u16]) -> Result<Option<Collision>, Cause>
    ensures call { collision_numbers result ≡ collision_numbers (collision_call m h paths.now) }
    ensures meant { Meant m h paths.now result }
{
    let count = usize::from(m);
    let last = usize::from(h);
    if !(1..=12).contains(&count) {
        return Err(Cause::BadCount);
    }
    if paths.len() != count * (last + 1) {
        return Err(Cause::WrongLength);
    }
    Ok(collision_scan::first_among(count, last, paths))
}
