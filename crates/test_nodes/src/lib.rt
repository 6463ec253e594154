//! Tests of the crates above those of values: axes, builders of nodes, and white space that is
//! stripped.
//!
//! They stand apart from the crates that they test, so that a change of a test need not prove those
//! crates again. Two rules keep their proofs short: what a test makes ends by `drop` and not with
//! its block, and a helper ends the test where memory runs out, so that no `?` leaves while such a
//! value is alive.
#![tactic(auto)]

#[cfg(test)]
mod axes;
#[cfg(test)]
mod builders;
#[cfg(test)]
mod contents;
#[cfg(test)]
mod large;
#[cfg(test)]
mod made;
#[cfg(test)]
mod white_spaces;
