//! The prolog of a query on drafts: version, namespaces, boundary white space, options, variables
//! and functions (XQuery 1.0, 4).
//!
//! Each call puts just the tokens of its declarations, each with its semicolon, before those of the
//! draft. Each declaration is wanted on a line of its own, and a function's body on lines of its
//! own.
//!
//! Example: the namespace of `p` and `urn:1` is put as `declare`, `namespace`, `p`, `=`, `"urn:1"`
//! and `;`.

mod declarations;
mod rules;
mod setters;
mod words;

pub use declarations::{push_functions, push_variables};
pub use rules::rules_text;
pub use setters::{push_namespaces, push_omit, push_preserved, push_space, push_version};
