//! Tests of closed stylesheets: what is loaded is closed, and is so no more where one part of it
//! is changed.
//!
//! They stand apart from the crates that they test, so that a change of a test need not prove them
//! again. A helper ends the test where memory runs out, and what a test makes ends by `drop`.
#![tactic(auto)]

#[cfg(test)]
mod bodies;
#[cfg(test)]
mod changes;
#[cfg(test)]
mod loaded;
#[cfg(test)]
mod made;
