//! Tests of the tokens of expressions.
//!
//! They stand apart from the crates that they test, so that a change of a test need not prove those
//! crates again.
#![tactic(auto)]

#[cfg(test)]
mod large;
#[cfg(test)]
mod made;
#[cfg(test)]
mod places;
#[cfg(test)]
mod tables;
