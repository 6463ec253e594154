//! Tests of runs of queries: whole command lines over files and sinks in memory.
//!
//! They stand apart from the crates that they test, so that a change of a test need not prove those
//! crates again. A helper ends the test where memory runs out, and what a test makes ends by
//! `drop`, which keeps the check of the tests short.
#![tactic(auto)]

#[cfg(test)]
mod examples;
#[cfg(test)]
mod limits;
#[cfg(test)]
mod made;
#[cfg(test)]
mod queries;
