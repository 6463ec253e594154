//! Tests of quiet predicates and of patterns: worked examples by hand from XPath 2.0 and XSLT 2.0.
//!
//! They stand apart from the crates that they test, so that a change of a test need not prove them
//! again.
#![tactic(auto)]

#[cfg(test)]
mod asked;
#[cfg(test)]
mod kept;
#[cfg(test)]
mod large;
#[cfg(test)]
mod made;
#[cfg(test)]
mod matched;
#[cfg(test)]
mod predicates;
#[cfg(test)]
mod walks;
#[cfg(test)]
mod written;
