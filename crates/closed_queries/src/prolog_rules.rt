//! The static rules of the prolog of a query, over its declarations in the order in which they stand (XQuery 1.0, 4).
//!
//! `broken_setter` tells the first rule that namespaces and setters break, and `broken_query` the first that variables,
//! functions and the body break: a variable is in scope after its declaration, and functions may be called before
//! theirs.
//!
//! Example: `declare variable $x := $y; declare variable $y := 1; 2` breaks XPST0008, and
//! `declare variable $x := 1; declare variable $x := 2; 3` breaks XQST0049.

mod declarations;
mod faults;
mod query_rules;
mod seen;
mod setter_rules;
mod setters;

pub use declarations::Declaration;
pub use query_rules::broken_query;
pub use setter_rules::broken_setter;
pub use setters::Setter;
