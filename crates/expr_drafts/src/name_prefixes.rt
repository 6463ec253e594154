//! Prefixes with a table of the one that names of each uri are written with (Namespaces in XML 1.0,
//! 4; XPath 2.0, 2.1.1).
//!
//! Contracts see `NamePrefixes` as the prefixes that it was made of. The prefix of a uri is the
//! first that is bound to it and that no earlier binding binds to another uri.
//!
//! Example: made of prefixes where `p` is bound to `urn:1`, `p` to `urn:2`, `q` to `urn:2` and `r`
//! to `urn:2`, it gives `q` for `urn:2`, and nothing for `urn:3`.

mod prefixes;
mod tables;

pub use prefixes::NamePrefixes;
