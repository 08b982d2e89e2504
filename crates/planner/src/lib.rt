// The planner's calls for programs in C and Rust, one file to a call. Each takes slices and numbers, has no `requires`, and writes its
// answer as the numbers of document 01: first the cause, 0 where the call is accepted. include/planner.h has them for C.
#![tactic(auto)]

pub mod assignment_call;
pub mod board_call;
pub mod check_call;
pub mod collision_call;
pub mod in_order_call;
pub mod path_call;
pub mod search_call;
pub mod sheet_calls;
