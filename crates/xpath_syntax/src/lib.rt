//! The parser of XPath expressions (XPath 2.0, 2 and A).
//!
//! `parse_expr` gives the expression that the tokens of a text spell, where it nests no deeper than
//! the limit and breaks no static rule. `Syntax` comes exactly where they spell nothing, `TooDeep`
//! exactly where they spell what nests deeper, and else the code is that of the first broken rule.
//! Which variables and functions are declared is not known here, so the rules on their names are
//! the callers'.
//!
//! Example: the tokens of `p:a[1]` give a step along the child axis with one predicate where `p` is
//! declared, and XPST0081 where it is not.
#![tactic(auto)]

pub mod expr_readings;
mod expressions;
mod laws;

pub use expr_resolve;
pub use expressions::parse_expr;
pub use laws::{reads_what_is_spelled, spells_one};
