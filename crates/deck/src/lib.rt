// The planner's terms: the types that every call shares, and the type of each call's answer. A call that can be refused answers a
// `Result` with the cause, and one that may find nothing an `Option` in it.
// The definitions of specs/ speak of these same types, so that code and definitions have one vocabulary.
#![tactic(auto)]

mod cause;

pub use cause::Cause;

// A carrier's number and a task's number both count from zero and are types of their own, so that neither stands for the
// other (a and g in the literature).
#[derive(Clone, Copy, Debug, PartialEq, Eq, PartialOrd, Ord)]
pub struct Carrier(pub usize);

#[derive(Clone, Copy, Debug, PartialEq, Eq, PartialOrd, Ord)]
pub struct Task(pub usize);

// A constraint is one of two kinds.
#[derive(Clone, Copy, Debug, PartialEq, Eq)]
pub enum Constraint {
    // The carrier is not on u at t.
    Place {
        carrier: Carrier,
        u: usize,
        t: usize,
    },
    // The carrier does not go from u to v between t and t + 1; where u is v, it does not wait there.
    Move {
        carrier: Carrier,
        u: usize,
        v: usize,
        t: usize,
    },
}

// A collision of the carriers i and j.
#[derive(Clone, Copy, Debug, PartialEq, Eq)]
pub enum Collision {
    // Both are on u at t.
    Place {
        t: usize,
        i: Carrier,
        j: Carrier,
        u: usize,
    },
    // Between t and t + 1 carrier i goes from u to v and carrier j from v to u.
    Move {
        t: usize,
        i: Carrier,
        j: Carrier,
        u: usize,
        v: usize,
    },
}

// A stretch of the sheet that a pair of the directory names.
// Kept: a type of its own. Others of two numbers have its shape, but none of them is an offset with a size.
#[derive(Clone, Copy, Debug, PartialEq, Eq)]
pub struct Stretch {
    pub offset: usize,
    pub size: usize,
}

// How many pairs a directory has at most: that of 12 tasks.
pub const MOST_PAIRS: usize = 14;

// What the sheet reader finds in an accepted sheet: the header, and the directory's pairs, nothing past the last.
// Kept: an array, since there is no heap; `count` is the header's m, two less than there are pairs.
#[derive(Clone, Copy, Debug, PartialEq, Eq)]
pub struct Reading {
    pub width: usize,
    pub height: usize,
    pub count: usize,
    pub horizon: usize,
    pub limit: usize,
    pub pairs: [Stretch; MOST_PAIRS],
}

// A least assignment: the sum of its entries, the task of each carrier, and the dual prices of rows and columns.
// Kept: three arrays, since the C interface hands out each as a list of its own, and `columns` is by task where the others are by carrier.
#[derive(Clone, Copy, Debug, PartialEq, Eq)]
pub struct Assignment {
    pub sum: usize,
    pub tasks: [u8; 12],
    pub rows: [i32; 12],
    pub columns: [i32; 12],
}

// What a search that is not refused comes to, with how many nodes it made: a plan, of which the bound is the flowtime; that there is
// no plan; or that its nodes are spent, with a bound below which no plan's flowtime is.
// Kept: an enum of its own. Of the two answers without a plan each has values, so that neither Option nor Result has this shape.
#[derive(Clone, Copy, Debug, PartialEq, Eq)]
pub enum SearchAnswer {
    Plan {
        tasks: [u8; 12],
        flowtime: usize,
        nodes: usize,
        bound: usize,
    },
    NoPlan {
        nodes: usize,
    },
    Spent {
        nodes: usize,
        bound: usize,
    },
}
