// The first collision.
ghost use Rattle.std.specs.Prelude.{◌≡◌};
ghost use Rattle.deck.specs.Calls.{collision_call};
ghost use Rattle.deck.specs.Numbers.{collision_numbers};

use numbers::collision_numbers;

// The numbers: cause, 1 if there is a collision, its kind (0 place, 1 move), t, i, j, u, v.
#[unsafe(no_mangle)]
pub extern "C" fn planner_first_collision(m: u8, h: u8, paths: &[u16], numbers: &mut [u32; 8])
    ensures { numbers.new ≡ collision_numbers (collision_call m h paths.now) }
{
    let answer = collision::first_collision(m, h, paths);
    *numbers = collision_numbers(answer);
}
