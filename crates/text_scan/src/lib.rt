//! What is left of a text, as it is taken from its front: character by character, and in runs of a class.
//!
//! Contracts see the characters that are left. Readers of documents, expressions and queries put their own steps on it.
//!
//! Example: of `12a` the run of digits is `12`, and `a` comes next.
#![tactic(auto)]

mod scans;

pub use scans::{Class, Scan};
