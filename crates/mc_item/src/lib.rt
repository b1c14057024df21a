//! Items: what is stored under a key, what it costs, and the numbers that items get.
//!
//! A cache stores a [`Body`] under each key until its [`Deadline`], counts [`cost`] against its budget, and takes
//! each new item's number from a [`CasCounter`]. No call takes memory.
//!
//! The other functions are worked examples of deadlines: they do nothing, and their contracts are the examples.
#![tactic(auto)]

mod bodies;
mod counters;
mod deadlines;
mod examples;

pub use bodies::{Body, OVERHEAD, cost, cost_at};
pub use counters::CasCounter;
pub use deadlines::{Deadline, NEVER, RELATIVE_LIMIT};
pub use examples::{
    a_second_more_is_a_moment, below_zero_is_dead_at_once, thirty_days_are_from_the_moment_on,
    zero_is_never,
};
