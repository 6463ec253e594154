//! Calls of stylesheet functions where none may stand: in the grouping keys of `xsl:for-each-group`
//! and in `use` of `xsl:key` (XSLT 2.0, 14.3 and 16.3, of which this processor takes a part).
//!
//! `push_body_keys`, `push_bound_keys` and `push_callee_keys` put what grouping keys use after a
//! list, and `push_called` the code of each call among uses of a function that is declared.
//!
//! Example: where `f:k` is declared with one parameter, `<xsl:for-each-group select="a"
//! group-by="f:k(.)"/>` breaks XTUN0001.

mod bodies;
mod called;

pub use bodies::{push_body_keys, push_bound_keys, push_callee_keys};
pub use called::push_called;
