//! Tests of the order and the groups of sequences, of tables by key and of sets of documents.
//!
//! They stand apart from the crates that they test, so that a change of a test need not prove those
//! crates again.
#![tactic(auto)]

#[cfg(test)]
mod groups;
#[cfg(test)]
mod indexes;
#[cfg(test)]
mod made;
#[cfg(test)]
mod sets;
#[cfg(test)]
mod sorts;
#[cfg(test)]
mod tables;
