//! Tests of the evaluator of queries: texts of queries, and what they give at a document.
//!
//! They stand apart from the crates that they test, so that a change of a test need not prove them
//! again.
#![tactic(auto)]

#[cfg(test)]
mod cases;
#[cfg(test)]
mod large;
#[cfg(test)]
mod told;
