//! Tests of which texts are patterns and what they mean, which have the shape of one, and which
//! expressions may be predicates.
//!
//! They stand apart from the crates that they test, so that a change of a test need not prove them
//! again.
#![tactic(auto)]

#[cfg(test)]
mod predicates;
#[cfg(test)]
mod shapes;
#[cfg(test)]
mod shown;
#[cfg(test)]
mod sizes;
#[cfg(test)]
mod texts;
