//! What expressions are made of on drafts: names, node tests and types (XPath 2.0, 2.5.3, 3.1.2 and
//! 3.2.1).
//!
//! Each call puts just the tokens before those of the draft that the definitions have; nothing where
//! a name has no token.
//!
//! Example: `as xs:integer?` are three tokens, where some prefix `xs` is bound to the uri of the
//! types.

mod names;
mod types;

pub use names::{push_name, push_var, push_variable};
pub use types::{axis_key, push_single_type, push_test, push_type, push_typing};
