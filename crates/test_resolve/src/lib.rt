//! Tests of what raw values and the texts of expressions and queries mean: worked examples of every
//! form, and of every static rule.
//!
//! They stand apart from the crates that they test, so that a change of a test need not prove them
//! again.
#![tactic(auto)]

#[cfg(test)]
mod codes;
#[cfg(test)]
mod kids;
#[cfg(test)]
mod labels;
#[cfg(test)]
mod meanings;
#[cfg(test)]
mod queries;
#[cfg(test)]
mod shown;
#[cfg(test)]
mod texts;
#[cfg(test)]
mod words;
