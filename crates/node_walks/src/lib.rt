//! Walks along axes that look no further than they are asked to, also where predicates filter what
//! they give (XPath 2.0, 3.2).
//!
//! A `Walk` gives the nodes on an axis that pass a test, or those of them that predicates keep in
//! turn. Contracts see its moves: the steps along the axis that it still takes, and between them
//! the items that it gives. No predicate is asked before its node is, so that want of memory leaves
//! the walk standing for the same nodes. `kept_hits` collects at once, for predicates that look at how
//! many nodes there are.
//!
//! Example: along the children `b`, `c`, `b` of an element a walk for `b` with the predicate `2`
//! takes three steps and gives the last of them, and then takes one step past the end.
#![tactic(auto)]

mod axis_walks;
mod collected;
mod quiet_walks;
mod sieves;
mod walks;

pub use collected::kept_hits;
pub use node_axes;
pub use quiet_eval;
pub use walks::Walk;
