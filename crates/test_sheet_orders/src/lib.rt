//! Tests of the order of global variables.
//!
//! They stand apart from the crate that they test, so that a change of a test need not prove it
//! again. A helper ends the test where memory runs out, and what a test makes ends by `drop`.
#![tactic(auto)]

#[cfg(test)]
mod graphs;
#[cfg(test)]
mod orders;
