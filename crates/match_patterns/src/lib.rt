//! Whether a pattern matches a node (XSLT 2.0, 5.5.3).
//!
//! `matches` is exact: `pattern_matches` of `specs/` says it step by step, from the last to the first. Siblings are looked at only
//! for predicates that look at positions.
//!
//! Example: `b/c[2]` matches the second `c` of those that a `b` has as children.
#![tactic(auto)]

mod findings;
mod patterns;
mod steps;

pub use patterns::matches;
