//! Tests of the walks of a step and of the default priorities of patterns: worked examples of every
//! public call.
//!
//! They stand apart from the crates that they test, so that a change of a test need not prove them
//! again.
#![tactic(auto)]

#[cfg(test)]
mod hits;
#[cfg(test)]
mod made;
#[cfg(test)]
mod priorities;
