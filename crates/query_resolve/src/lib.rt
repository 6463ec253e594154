//! What a query means that is read: its variables, functions, namespaces and body with all names
//! resolved, or the code of the first static rule that it breaks (XQuery 1.0, 2.2.4 and 4).
//!
//! `resolve_query` is exact: it gives the query exactly where no rule is broken. The rules stand in
//! three parts, and the first broken one counts: those on version, namespaces and setters; those on
//! what else is written, in reading order; and those on which variables and functions are declared
//! where they are named, in reading order.
//!
//! Example: `declare variable $x := 1; $x` means a query with one variable, and `$x` alone breaks
//! XPST0008.
#![tactic(auto)]

mod declarations;
mod late;
mod laws;
mod parts;
mod queries;
pub mod query_prologs;

pub use late::Late;
pub use laws::{means_one, resolves_what_is_meant};
pub use queries::resolve_query;
