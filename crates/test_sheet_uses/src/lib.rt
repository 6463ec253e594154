//! Tests of what the parts of stylesheets use of what is declared around them, of names that are not
//! declared, and of how globals depend on one another.
//!
//! They stand apart from the crates that they test, so that a change of a test need not prove them
//! again. A helper ends the test where memory runs out, and what a test makes ends by `drop`.
#![tactic(auto)]

#[cfg(test)]
mod bodies;
#[cfg(test)]
mod declared;
#[cfg(test)]
mod expressions;
#[cfg(test)]
mod globals;
#[cfg(test)]
mod told;
