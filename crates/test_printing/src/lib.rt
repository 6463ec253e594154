//! Tests of what prints queries: worked tokens and pieces, and large inputs.
//!
//! They stand apart from the crates that they test, so that a change of a test need not prove them
//! again.
#![tactic(auto)]

#[cfg(test)]
mod tokens;
