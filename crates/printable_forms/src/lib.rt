//! Whether expressions can be printed under prefixes (XPath 2.0, 3; XQuery 1.0, 3).
//!
//! `can_be_printed` is exact: its contract names the definition. Integers have no sign, lists other
//! than `()`, `or` and `and` have two parts or more, filters have predicates, conditionals have arms
//! and end in none, quantifiers have bindings, FLWOR expressions have clauses and are stable with
//! orders alone, calls are of no atomic types, no characters of a direct element stand beside
//! others, and each name and type has a token.
//!
//! Example: where `p` is bound to `urn:p`, the variable `a` of `urn:p` can be printed, and one of
//! `urn:q` cannot.
#![tactic(auto)]

mod forms;
mod names;
mod roots;
mod runs;
mod types;

pub use forms::can_be_printed;
pub use names::{has_function, has_name};
pub use types::has_kind;
