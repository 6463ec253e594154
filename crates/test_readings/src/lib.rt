//! Tests of what texts are read as: the texts of stylesheets where they stand, and why they are none.
//!
//! They stand apart from the crates that they test, so that a change of a test need not prove them
//! again.
#![tactic(auto)]

#[cfg(test)]
mod sheets;
#[cfg(test)]
mod texts;
