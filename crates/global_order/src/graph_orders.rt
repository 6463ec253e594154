//! The order of the first places of a graph by which of the last places they reach.
//!
//! Of the places of a graph the first stand for things that are to be put in order, and the last,
//! one for each, for these as others name them. `order_by` gives the order that
//! `crate::order` gives of what each of the first reaches among the last, and `needs_by`
//! tells what that is. That list can be far longer than the graph, so `order_by` does not make it:
//! it guesses the order, in the time that it takes to walk through the graph a few times, and then
//! tests by tests that only the right order passes, also where circles are left out of it. What
//! passes none would be put in order by the list. `are_behind_by` tells whether they stand in order.
//!
//! Example: where 0 and 1 are to be put in order, 3 and 4 stand for them, 0 leads to 2, 2 to 4, and
//! 1 to nothing, 0 needs 1, and the order is 1, 0.
#![tactic(auto, using(crate::proofs::GraphOrders::Tests::turns))]

mod behind;
mod checks;
mod guesses;
mod marks;
mod orders;
mod parts;

pub use behind::are_behind_by;
pub use orders::{needs_by, order_by};
