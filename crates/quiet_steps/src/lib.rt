//! Paths that one walk along an axis answers, walked on demand (XPath 2.0, 2.3.1 and 3.2).
//!
//! A step whose predicates are quiet, from the context node or the root, fails nowhere and makes
//! nothing. So its nodes need not be looked for before they are asked for. `//a[p]` is one walk too,
//! along the descendants, where `p` looks at no position.
//!
//! Example: `(//a[@b = "x"])[1]` looks at no node after the first that it gives.
#![tactic(auto)]

mod routes;
mod walks;

pub use walks::{has_late_walk, late_walk, late_walk_list, late_walk_place};
