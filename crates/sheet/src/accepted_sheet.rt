// An accepted sheet that has bytes, as a type: what holds of such a sheet alone is known of every value.
ghost use Rattle.std.specs.Prelude.{◌≡◌, ◌<◌, ◌≤◌, None, length, get_or};
ghost use Rattle.deck.specs.Sheet.{read, width_of, height_of, count_of, horizon_of, limit_of, grid_stretch, area, start_of, goals_of, last_goal, cause};

use deck::{Carrier, Task};

#[derive(Clone, Copy)]
pub struct AcceptedSheet<'a> {
    pub bytes: &'a [u8],
    pub ghost accepted: { cause bytes.now ≡ None },
}

impl<'a> AcceptedSheet<'a> {
    pub fn new(bytes: &'a [u8]) -> Self
        requires { cause bytes.now ≡ None }
        ensures { result.bytes ≡ bytes.entry }
    {
        AcceptedSheet { bytes }
    }

    // The header: w, h, m, H and N.
    #[tactic(auto, using(crate::proofs::Accepted::width_range))]
    pub fn width(&self) -> usize
        ensures value { result ≡ width_of self.now.bytes.now }
        ensures range { (1 ≤ result) × (result ≤ 32) }
    {
        crate::width(self.bytes)
    }

    #[tactic(auto, using(crate::proofs::Accepted::height_range))]
    pub fn height(&self) -> usize
        ensures value { result ≡ height_of self.now.bytes.now }
        ensures range { (1 ≤ result) × (result ≤ 32) }
    {
        crate::height(self.bytes)
    }

    #[tactic(auto, using(crate::proofs::Accepted::count_range))]
    pub fn count(&self) -> usize
        ensures value { result ≡ count_of self.now.bytes.now }
        ensures range { (1 ≤ result) × (result ≤ 12) }
    {
        crate::count(self.bytes)
    }

    pub fn horizon(&self) -> usize
        ensures value { result ≡ horizon_of self.now.bytes.now }
        ensures range { result ≤ 255 }
    {
        crate::horizon(self.bytes)
    }

    #[tactic(auto, using(crate::proofs::Accepted::limit_range))]
    pub fn limit(&self) -> usize
        ensures value { result ≡ limit_of self.now.bytes.now }
        ensures range { (1 ≤ result) × (result ≤ 4096) }
    {
        crate::limit(self.bytes)
    }

    // How many places the grid has.
    #[tactic(auto, using(crate::proofs::Accepted::area_range))]
    pub fn area(&self) -> usize
        ensures value { result ≡ area (read self.now.bytes.now) }
        ensures range { (1 ≤ result) × (result ≤ 1024) }
    {
        crate::area(self.bytes)
    }

    // Where the grid's bytes begin.
    pub fn grid_offset(&self) -> usize
        ensures value { result ≡ (grid_stretch self.now.bytes.now).offset }
        ensures range { result < 65536 }
    {
        crate::grid_offset(self.bytes)
    }

    // The place at which the carrier i starts, 0 past the last start.
    // Kept: 0 as in the definition `start_of`; callers ask for carriers below m, and have no use for an Option.
    pub fn start(&self, i: Carrier) -> usize
        ensures value { result ≡ start_of (read self.now.bytes.now) i }
        ensures range { result < area (read self.now.bytes.now) }
    {
        crate::start(self.bytes, i)
    }

    // How many goals the task j has.
    pub fn goal_count(&self, j: Task) -> usize
        ensures value { result ≡ length (goals_of (read self.now.bytes.now) j) }
        ensures range { result ≤ 8 }
        ensures nonzero { j.0 < count_of self.now.bytes.now → 0 < result }
    {
        crate::goal_count(self.bytes, j)
    }

    // The goal k of the task j, counted from 0; 0 past its last.
    // Kept: 0 as in `sheet::goal`; callers count k below `goal_count`, and have no use for an Option.
    pub fn goal(&self, j: Task, k: usize) -> usize
        ensures value { result ≡ get_or (goals_of (read self.now.bytes.now) j) k 0 }
        ensures range { result < area (read self.now.bytes.now) }
    {
        crate::goal(self.bytes, j, k)
    }

    // The last goal of the task j, 0 where it has none.
    // Kept: 0 as in the definition `last_goal`, for a task that is not below m; each that is has a last goal.
    pub fn last_goal(&self, j: Task) -> usize
        ensures value { result ≡ last_goal (read self.now.bytes.now) j }
        ensures range { result < area (read self.now.bytes.now) }
    {
        crate::last_goal(self.bytes, j)
    }
}
