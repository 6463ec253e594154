//! What names, name tests, types and axes mean where they stand in an expression, and which static
//! rules they break (XPath 2.0, 2.1.1, 2.5 and 3.2.1; XQuery 1.0, 3.7.1.2).
//!
//! Each call that resolves something gives its value exactly where no rule is broken, and else the
//! code of the first broken rule. A prefix that is bound to no uri, or to the empty one, is not
//! declared; of several bindings of a prefix the first counts.
//!
//! Example: where `p` is bound to `urn:p`, `p:a` means the name `a` of `urn:p`, and `q:a` breaks
//! XPST0081.
#![tactic(auto)]

mod doubles;
mod fault;
mod names;
mod tests_of_names;
mod types;
mod written;

pub use doubles::names_differ;
pub use fault::{ResolveFault, static_fault};
pub use names::{declared_uri, expr_name, no_text, node_name, uri_in, uri_of};
pub use tests_of_names::{default_in, name_test};
pub use types::{atomic_type, call_type, cast_type, single_type, type_named};
pub use written::{Written, WrittenTest};
pub use xt_types;
