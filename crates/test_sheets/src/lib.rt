//! Tests of stylesheets that are loaded: which rule each breaks, and what it holds.
//!
//! They stand apart from the crates that they test, so that a change of a test need not prove them
//! again. A helper ends the test where memory runs out, and what a test makes ends by `drop`.
#![tactic(auto)]

#[cfg(test)]
mod counts;
#[cfg(test)]
mod declarations;
#[cfg(test)]
mod large;
#[cfg(test)]
mod made;
#[cfg(test)]
mod modules;
#[cfg(test)]
mod patterns;
