//! The printer of queries: a query as text that is read back as the same query (XQuery 1.0, 2.2.4,
//! 3.7.1, 4 and A).
//!
//! `is_printable` tells whether a query can be printed, and `print` asks for one that can. Its text
//! spells just that query, so a parser gives it back.
//! Declarations stand on lines of their own, and so do clauses, branches and the content of
//! constructors; there are parentheses only where the grammar needs them.
//!
//! Example: a query without declarations whose body is the sum of `1` and the product of `2` and
//! `3` is printed as `xquery version "1.0" ;`, `declare boundary-space preserve ;` and `1 + 2 * 3`,
//! each on a line.
#![tactic(auto)]

mod fitness;
mod printable;
pub mod printable_queries;
mod printing;
pub mod prolog_drafts;

pub use printable::is_printable;
pub use printing::{print, print_expr};
