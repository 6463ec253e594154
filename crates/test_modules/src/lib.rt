//! Tests of what holds the modules of a stylesheet together: the files that links name, and the places
//! of a graph that are reached.
//!
//! They stand apart from the crates that they test, so that a change of a test need not prove them
//! again. A helper ends the test where memory runs out, and what a test makes ends by `drop`.
#![tactic(auto)]

#[cfg(test)]
mod names;
#[cfg(test)]
mod places;
