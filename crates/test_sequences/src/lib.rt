//! Tests of sequences: each call once, since a call that always wants memory keeps its contract,
//! and large inputs: what is walked on demand is not built, and no walk takes more than linear
//! time.
//!
//! They stand apart from the crate that they test, so that a change of a test need not prove it
//! again.
#![tactic(auto)]

#[cfg(test)]
mod calls;
#[cfg(test)]
mod concatenations;
#[cfg(test)]
mod made;
#[cfg(test)]
mod ranges;
#[cfg(test)]
mod singles;
#[cfg(test)]
mod walks;
