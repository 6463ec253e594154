//! The order in which the global variables of a stylesheet are evaluated (XSLT 2.0, 9.5).
//!
//! Again and again it takes the first in declaration order whose dependences are done. It has all of
//! them exactly where none depends on itself, through others or not; else what it leaves out stands
//! in circles, or depends on one.
//!
//! Example: where the first of three globals depends on the third alone and the others on none, the
//! order is the second, the third, the first.
#![tactic(auto)]

pub mod graph_orders;
mod orders;
pub mod reached_places;
mod waits;

pub use orders::order;
