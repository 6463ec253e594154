//! Tests of the reading of whole queries: prologs, direct elements, limits and large inputs.
//!
//! They stand apart from the crates that they test, so that a change of a test need not prove them
//! again.
#![tactic(auto)]

#[cfg(test)]
mod bodies;
#[cfg(test)]
mod large;
#[cfg(test)]
mod prologs;
#[cfg(test)]
mod shown;
