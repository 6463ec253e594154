//! Tests of the static rules on names that a whole stylesheet breaks, of the order of its
//! globals, and of what is in it.
//!
//! They stand apart from the crates that they test, so that a change of a test need not prove them
//! again. A helper ends the test where memory runs out, and what a test makes ends by `drop`.
#![tactic(auto)]

#[cfg(test)]
mod assembled;
#[cfg(test)]
mod declared;
#[cfg(test)]
mod made;
#[cfg(test)]
mod passed;
#[cfg(test)]
mod whole;
