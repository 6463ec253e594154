//! Tests of expressions on their own: what they give with variables, a focus and documents that are
//! handed in.
//!
//! They stand apart from the crates that they test, so that a change of a test need not prove them
//! again.
#![tactic(auto)]

#[cfg(test)]
mod cases;
#[cfg(test)]
mod told;
