//! Tests of the operators of expressions, and of what is done between evaluations: worked examples
//! of each, and the codes of errors in their order.
//!
//! They stand apart from the crate that they test, so that a change of a test need not prove it
//! again.
#![tactic(auto)]

#[cfg(test)]
mod evaluation;
#[cfg(test)]
mod made;
#[cfg(test)]
mod operands;
#[cfg(test)]
mod parts;
#[cfg(test)]
mod sets;
#[cfg(test)]
mod written;
