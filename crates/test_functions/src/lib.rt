//! Tests of the library of functions: worked examples of every function, the codes of errors and
//! their order, and large inputs.
//!
//! They stand apart from the crates that they test, so that a change of a test need not prove them
//! again.
#![tactic(auto)]

#[cfg(test)]
mod deep;
#[cfg(test)]
mod found;
#[cfg(test)]
mod large;
#[cfg(test)]
mod made;
#[cfg(test)]
mod names;
#[cfg(test)]
mod numbers;
#[cfg(test)]
mod sequences;
#[cfg(test)]
mod texts;
#[cfg(test)]
mod written;
