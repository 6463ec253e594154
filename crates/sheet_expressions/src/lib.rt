//! What stylesheets ask of the expressions in them: which functions these may call, and the names
//! of keys in calls of key() (XSLT 2.0, 14.1, 16.3 and 16.6).
//!
//! `checked` goes over what an expression is as it is written, before prefixes are resolved in it.
//! It gives None exactly where some call may not stand: one of a function that is left out, one of
//! current-group() or current-grouping-key() outside of an xsl:for-each-group, and one of key() whose
//! first argument is no literal. Else it gives the same value, but that each literal that writes the
//! name of a key stands as the name that it means where it stands.
//! `is_key_use` tells of an expression whether a key may have it as its `use`.
//!
//! Example: where `p` is bound to `urn:p`, the call `key('p:n', 1)` stands as `key('{urn:p}n', 1)`,
//! and `number(1)` may not stand.
#![tactic(auto)]

mod calls;
mod keys;
mod parts;
pub mod sheet_names;
mod uses;
mod whole;

pub use calls::{SheetCall, sheet_call};
pub use keys::{braced, key_text};
pub use uses::is_key_use;
pub use whole::checked;
