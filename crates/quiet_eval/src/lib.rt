//! Judges quiet predicates, which fail on no node (XPath 2.0, 3.2.2; XSLT 2.0, 5.5.3).
//!
//! `holds` tells whether a predicate keeps a node at a position among so many. It is exact for each predicate that a pattern may
//! have, so also for those in which an attribute is compared with an integer.
//!
//! `hits` gives the nodes on an axis that pass a test, `hits_ahead` those that a cursor has still before it, and `kept_in_turn` those nodes that predicates keep in turn.
//!
//! Example: `@k = "a" and position() < 3` holds for an element with an attribute `k` of the value `a` at the position 2 of 5.
#![tactic(auto)]

mod predicates;
pub mod quiet_places;
mod singles;
mod step_hits;
mod subjects;
mod values;

pub use predicates::{holds, kept_in_turn};
pub use step_hits::{hits, hits_ahead};
