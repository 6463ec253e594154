//! Tests of what queries mean: every static rule of queries from each place where it can be broken,
//! which comes first, and worked values. Each query that is given is tested to be closed.
//!
//! They stand apart from the crates that they test, so that a change of a test need not prove them
//! again.
#![tactic(auto)]

#[cfg(test)]
mod codes;
#[cfg(test)]
mod large;
#[cfg(test)]
mod reads;
#[cfg(test)]
mod shapes;
#[cfg(test)]
mod shown;
#[cfg(test)]
mod values;
