//! Tests of sequence constructors in stylesheets that are loaded: which rule each breaks.
//!
//! They stand apart from the crates that they test, so that a change of a test need not prove them
//! again. A helper ends the test where memory runs out, and what a test makes ends by `drop`.
#![tactic(auto)]

#[cfg(test)]
mod bodies;
#[cfg(test)]
mod expressions;
#[cfg(test)]
mod instructions;
#[cfg(test)]
mod made;
#[cfg(test)]
mod nesting;
