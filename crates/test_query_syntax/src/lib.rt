//! Tests of the parser of queries: texts, and what they are or why they are none.
//!
//! They stand apart from the crates that they test, so that a change of a test need not prove them
//! again.
#![tactic(auto)]

#[cfg(test)]
mod texts;
