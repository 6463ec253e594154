//! Tests of the rules on names: which variables and functions are in scope, which queries are closed, and which rules a
//! prolog breaks.
//!
//! They stand apart from the crates that they test, so that a change of a test need not prove them again.
#![tactic(auto)]

#[cfg(test)]
mod closed;
#[cfg(test)]
mod large;
#[cfg(test)]
mod made;
#[cfg(test)]
mod names;
#[cfg(test)]
mod prologs;
