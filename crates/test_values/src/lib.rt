//! Tests of the crates of values: names, atoms, items, node tests, trees and scopes, as the crates
//! above them use them.
//!
//! They stand apart from the crates that they test, so that a change of a test need not prove those
//! crates again. Two rules keep their proofs short: what a test makes ends by `drop` and not with
//! its block, and a helper ends the test where memory runs out, so that no `?` leaves while such a
//! value is alive.
#![tactic(auto)]

#[cfg(test)]
mod atoms;
#[cfg(test)]
mod items;
#[cfg(test)]
mod lists;
#[cfg(test)]
mod made;
#[cfg(test)]
mod names;
#[cfg(test)]
mod passes;
#[cfg(test)]
mod scopes;
#[cfg(test)]
mod trees;
