//! Tests of the text of queries: which tokens and pieces it is read as, and large inputs.
//!
//! They stand apart from the crate that they test, so that a change of a test need not prove it
//! again.
#![tactic(auto)]

#[cfg(test)]
mod elements;
#[cfg(test)]
mod expressions;
#[cfg(test)]
mod large;
#[cfg(test)]
mod seconds;
#[cfg(test)]
mod shown;
