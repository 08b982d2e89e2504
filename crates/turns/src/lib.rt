// The turns of the search on the workspace.
#![tactic(auto)]

ghost use Rattle.std.specs.Prelude.{◌≡◌, List, [], ◌∷◌, ℕ, ◌<◌};
ghost use Rattle.deck.specs.Search.{State, root_of, rest_after, turn, cheapest};
ghost use Rattle.deck.specs.Planner.{problem, sides, plan_for};
ghost use Rattle.deck.specs.Collisions.{first_collision};
ghost use Rattle.deck.specs.declared.Constraint.{Constraint};
ghost use Rattle.meaning.specs.Making.{make_each};
ghost use Rattle.records.specs.Record.{HasRecord};
ghost use Rattle.nodes.specs.Nodes.{node_at, Lows};
ghost use Rattle.meaning.specs.Constraints.{InRange};
ghost use Rattle.expand.specs.Given.{sheet_of, Room};
ghost use Rattle.expand.specs.Held.{Held, Holding, NodeAt, Nodes, Same};
ghost use Rattle.turns.specs.Turns.{StartsOf, Turning, TurnedTo, EndedWith};

use deck::{Collision, Constraint};
use expand::{Given, Made};
use nodes::Open;
use std::ops::ControlFlow;

// How the search ends: a node is the plan; no node is open; or a node was to be made and none was left, where no plan costs less than
// the bound. Beside a plan or none, how many nodes are made. Kept: three ends, each with its own numbers: no Option or Result has three.
#[derive(Clone, Copy, Debug, PartialEq, Eq)]
pub enum End {
    Plan { node: Open, made: usize },
    NoPlan { made: usize },
    Spent { bound: usize },
}

// The constraints of the two children of a collision: that of carrier i, and that of carrier j, whose step goes the other way.
#[tactic(auto, unfolding(deck::specs::Planner::sides))]
fn sides(c: Collision) -> (Constraint, Constraint)
    ensures { result ≡ sides c }
{
    match c {
        Collision::Place { t, i, j, u } => (
            Constraint::Place { carrier: i, u, t },
            Constraint::Place { carrier: j, u, t },
        ),
        Collision::Move { t, i, j, u, v } => (
            Constraint::Move {
                carrier: i,
                u,
                v,
                t,
            },
            Constraint::Move {
                carrier: j,
                u: v,
                v: u,
                t,
            },
        ),
    }
}

// The first collision of the paths of node n, which are written over the first words of `paths`. Kept: `StartsOf`, here and in `planning`:
// the starts stand beside `Given`, since nodes are made without them, and these functions alone ask for both.
fn collision_of(
    given: &Given,
    starts: &[u16; 12],
    work: &[u32],
    n: usize,
    paths: &mut [u16; 3072],
) -> Option<Collision>
    requires { StartsOf (sheet_of given.now) starts.now × HasRecord work.now n }
    ensures { result ≡ first_collision (sheet_of given.now).count (sheet_of given.now).horizon (node_at (sheet_of given.now) work.now n).paths }
{
    let sheet = given.sheet;
    let m = sheet.count();
    let last = sheet.horizon();
    nodes::write_paths(work, n, starts, sheet.width(), last, m, paths);
    collision_scan::first_among(m, last, paths)
}

// Expands a node by the collision c.
fn expanded(
    given: &Given,
    work: &mut [u32],
    spare: &mut [u32; 8192],
    list: &mut [u16; 20480],
    made: Made,
    node: Open,
    c: Collision,
) -> ControlFlow<End, Made>
    requires room { Room given.now work.old }
    requires below { node.n < made.nodes }
    requires held { Holding (sheet_of given.now) work.old made.nodes made.latest }
    requires node_at { NodeAt (sheet_of given.now) work.old node.n × InRange (sheet_of given.now) (sides c).0 × InRange (sheet_of given.now) (sides c).1 }
    ensures turned { (opened : Nodes) (rest : List (List ℕ)) → Held (sheet_of given.now) work.old made.nodes made.latest (record { opened = opened; made = made.nodes; rest = rest }) → TurnedTo (sheet_of given.now) work.new result (make_each (problem (sheet_of given.now)) (sheet_of given.now).limit node.cost (node_at (sheet_of given.now) work.old node.n) (sides c) rest (record { opened = opened; made = made.nodes; rest = rest_after (problem (sheet_of given.now)) (node_at (sheet_of given.now) work.old node.n).root rest })) }
    ensures same { Same (sheet_of given.now) work.old work.new made.nodes }
{
    let (first, second) = sides(c);
    match expand::expand(given, work, spare, list, made, node.n, first, second) {
        Some(more) => ControlFlow::Continue(more),
        None => ControlFlow::Break(End::Spent { bound: node.cost }),
    }
}

// One turn: the cheapest open node is taken. Without a collision it is the plan; otherwise it is expanded. The least keys of the
// blocks are then those of the nodes that were made before.
fn turn(
    given: &Given,
    starts: &[u16; 12],
    work: &mut [u32],
    spare: &mut [u32; 8192],
    list: &mut [u16; 20480],
    made: Made,
    lows: &mut [u32; 64],
    paths: &mut [u16; 3072],
) -> ControlFlow<End, Made>
    requires room { Room given.now work.old }
    requires starts { StartsOf (sheet_of given.now) starts.now }
    requires lows { Lows (sheet_of given.now).limit work.old made.nodes lows.old }
    requires by_index { (st : State (List ℕ) Constraint) × (k : ℕ) × Turning (sheet_of given.now) work.old made.nodes made.latest k st }
    ensures turned { (st : State (List ℕ) Constraint) (k : ℕ) → Turning (sheet_of given.now) work.old made.nodes made.latest k st → TurnedTo (sheet_of given.now) work.new result (turn (problem (sheet_of given.now)) (sheet_of given.now).limit cheapest st) }
    ensures lows { Lows (sheet_of given.now).limit work.new made.nodes lows.new }
{
    let limit = given.sheet.limit();
    let Some(node) = nodes::cheapest(work, limit, made.nodes, lows) else {
        return ControlFlow::Break(End::NoPlan { made: made.nodes });
    };
    nodes::close(work, limit, made.nodes, node.n, lows);
    let Some(c) = collision_of(given, starts, work, node.n, paths) else {
        return ControlFlow::Break(End::Plan {
            node,
            made: made.nodes,
        });
    };
    expanded(given, work, spare, list, made, node, c)
}

// The turns, from the first root on.
pub fn run(given: &Given, starts: &[u16; 12], work: &mut [u32], spare: &mut [u32; 8192]) -> End
    requires room { Room given.now work.old }
    requires starts { StartsOf (sheet_of given.now) starts.now }
    requires by_index { (a : List ℕ) × (rest : List (List ℕ)) × ((problem (sheet_of given.now)).assignments ≡ a ∷ rest) × Held (sheet_of given.now) work.old 1 1 (record { opened = root_of (problem (sheet_of given.now)) a ∷ []; made = 1; rest = rest }) }
    ensures { EndedWith (sheet_of given.now) work.new result (plan_for (sheet_of given.now)) }
{
    let limit = given.sheet.limit();
    let mut list = [0u16; 20480];
    let mut paths = [0u16; 3072];
    let mut lows = [records::CLOSED_KEY; 64];
    let mut made = Made {
        nodes: 1,
        latest: 1,
    };
    nodes::enter(work, limit, 0, made.nodes, &mut lows);
    for _ in 0..limit + 1 {
        match turn(
            given, starts, work, spare, &mut list, made, &mut lows, &mut paths,
        ) {
            ControlFlow::Continue(more) => {
                nodes::enter(work, limit, made.nodes, more.nodes, &mut lows);
                made = more;
            }
            ControlFlow::Break(end) => return end,
        }
    }
    End::NoPlan { made: 0 }
}
