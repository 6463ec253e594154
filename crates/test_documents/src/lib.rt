//! Tests of trees, of the reader and of the writer of documents.
//!
//! They stand apart from the crates that they test, so that a change of a test need not prove those
//! crates again. Sample trees are texts that the reader reads; only what no text gives is made by
//! hand. Two rules keep the proofs short: what a test makes ends by `drop` and not with its block,
//! and a helper ends the test where memory runs out.
#![tactic(auto)]

#[cfg(test)]
mod bindings;
#[cfg(test)]
mod documents;
#[cfg(test)]
mod items;
#[cfg(test)]
mod large;
#[cfg(test)]
mod made;
#[cfg(test)]
mod malformed;
#[cfg(test)]
mod nodes;
#[cfg(test)]
mod soundness;
#[cfg(test)]
mod trees;
#[cfg(test)]
mod writings;
