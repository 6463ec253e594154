//! Whether an expression keeps the static rules that are on no name alone: a cast is to a type that
//! casts are to (XPath 2.0, 3.10.2), no `for` has one name for its item and its position (XQuery
//! 1.0, 3.8.1), and no two attributes of a direct element have one name (3.7.1.1).
//!
//! `keeps_rules` is exact: its contract names the definition. Memory is taken for the names of the
//! attributes of one element alone.
#![tactic(auto)]

mod attributes;
mod keeping;
mod leaves;
pub mod nest_limits;

pub use keeping::keeps_rules;
