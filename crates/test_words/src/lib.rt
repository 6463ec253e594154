//! Tests of what the words of a command line ask for.
//!
//! They stand apart from the crate that they test, so that a change of a test need not prove that
//! crate again. A helper ends the test where memory runs out, and what a test makes ends by `drop`.
#![tactic(auto)]

#[cfg(test)]
mod shown;
#[cfg(test)]
mod tables;
