// The first collision of paths that are words of one list: least t, place before move, then least pair i < j.
#![tactic(auto)]

ghost use Rattle.std.specs.Prelude.{◌≡◌, suc, ◌*◌, ◌≤◌, ◌<◌, length};
ghost use Rattle.deck.specs.Lists.{pieces};
ghost use Rattle.deck.specs.Collisions.{first_collision};

use deck::Collision;
use paths::Paths;

mod paths;

// The first collision of m paths of h + 1 places each, which stand one after the other from the first word on.
pub fn first_among(m: usize, h: usize, paths: &[u16]) -> Option<Collision>
    requires { (m * suc h ≤ length paths.now) × (h < 65536) }
    ensures { result ≡ first_collision m h (pieces m (suc h) paths.now) }
{
    let paths = Paths {
        words: paths,
        count: m,
        last: h,
    };
    paths.first_collision()
}
