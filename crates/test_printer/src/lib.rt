//! Tests of the printer: queries and expressions as texts, parsed, printed, and parsed and printed
//! again; and queries that no text gives, some of which cannot be printed.
//!
//! They stand apart from the crates that they test, so that a change of a test need not prove them
//! again.
#![tactic(auto)]

#[cfg(test)]
mod again;
#[cfg(test)]
mod expressions;
#[cfg(test)]
mod large;
#[cfg(test)]
mod made;
#[cfg(test)]
mod queries;
#[cfg(test)]
mod same;
#[cfg(test)]
mod texts;
