//! The first part of the prolog of a query: its version, its namespaces and its setters, and how
//! names are resolved after them (XQuery 1.0, 4.1 to 4.13).
//!
//! `checked_setters` gives the setters that are declared where they break no rule, and else the
//! code of the first that they break. `prefixes_of` and `is_stripped` say what they mean: declared
//! prefixes come before those that are predeclared, and of several bindings the first counts.
//!
//! Example: `declare namespace p = "u"; declare namespace p = "v";` breaks XQST0033.

mod answers;
mod prefixes;
mod setters;

pub use answers::answer_to;
pub use prefixes::{declared_bindings, is_stripped, prefixes_of};
pub use setters::checked_setters;
