//! Tests of what the attributes of a stylesheet mean.
//!
//! They stand apart from the crates that they test, so that a change of a test need not prove them
//! again. A helper ends the test where memory runs out, and what a test makes ends by `drop`.
#![tactic(auto)]

#[cfg(test)]
mod shown;
#[cfg(test)]
mod templates;
#[cfg(test)]
mod values;
