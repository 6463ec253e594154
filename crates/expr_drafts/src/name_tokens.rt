//! The tokens that names, name tests and types are written as under prefixes (XPath 2.0, 2.1.1 and
//! 2.5.3; XQuery 1.0, 3.7.1.2).
//!
//! A name is written without a prefix where that means it, and else with the first prefix with
//! which it means it; a node's name is written with its own prefix. None is answered where no
//! token means the name.
//!
//! Example: where `p` is bound to `urn:p`, the variable `a` of `urn:p` is written `p:a`, and a
//! variable of `urn:q` cannot be written.

mod names;
mod nodes;
mod prefixed;
mod tests_of_names;
mod types;
mod words;

pub use names::{function_token, name_token};
pub use nodes::{bare_node_token, gives_name, node_token};
pub use tests_of_names::{same_test, test_token};
pub use types::type_token;
pub use words::word_term;
