//! Prefixes with the uris that they are bound to, which are found by a table (Namespaces in XML 1.0).
//!
//! Contracts see `BoundPrefixes` as the list of bindings that it was made of; of several bindings of
//! a prefix the first counts.
//!
//! Example: made of the bindings of `p` to `urn:1`, `q` to `urn:2` and `p` to `urn:3`, it gives
//! `urn:1` for `p`, and nothing for `r`.
#![tactic(auto)]

mod bindings;

pub use bindings::BoundPrefixes;
