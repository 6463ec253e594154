//! Which places of a graph are reached from a place of it.
//!
//! `reached` tells them in the order in which a walk in breadth finds them, each once. Its contract
//! says that these are the places to which a row of steps leads, and no others.
//!
//! Example: where 0 leads to 1, 1 to 0 and 2, and 3 to 0, the places 0, 1 and 2 are reached from 0.

mod found;
mod walks;

pub use found::Found;
pub use walks::reached;
