//! Tests of runs: whole command lines over files and sinks in memory, and stylesheets of the first
//! form on documents.
//!
//! They stand apart from the crates that they test, so that a change of a test need not prove those
//! crates again. Trees are read from XML that is in the test. A helper ends the test where
//! memory runs out, and what a test makes ends by `drop`, which keeps the check of the tests short.
#![tactic(auto)]

#[cfg(test)]
mod commands;
#[cfg(test)]
mod examples;
#[cfg(test)]
mod files_asked;
#[cfg(test)]
mod first_runs;
#[cfg(test)]
mod limits;
#[cfg(test)]
mod made;
#[cfg(test)]
mod whole_sheets;
