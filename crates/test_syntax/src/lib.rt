//! Tests of the syntax crates: how deep expressions, patterns and instructions nest, which forms
//! are regular, plain and quiet, and that copies keep their parts.
//!
//! They stand apart from the crates that they test, so that a change of a test need not prove those
//! crates again. Two rules keep their proofs short: what a test makes ends by `drop` and not with
//! its block, and a helper ends the test where memory runs out, so that no `?` leaves while such a
//! value is alive.
#![tactic(auto)]

#[cfg(test)]
mod expr_copies;
#[cfg(test)]
mod exprs;
#[cfg(test)]
mod forms;
#[cfg(test)]
mod instr_copies;
#[cfg(test)]
mod instr_nests;
#[cfg(test)]
mod instrs;
#[cfg(test)]
mod made;
#[cfg(test)]
mod nests;
#[cfg(test)]
mod query_copies;
#[cfg(test)]
mod sheet_copies;
#[cfg(test)]
mod sheet_nests;
#[cfg(test)]
mod types;
#[cfg(test)]
mod value_copies;
