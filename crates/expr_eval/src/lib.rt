//! The evaluator of expressions (XPath 2.0, 3; XQuery 1.0, 3), one for queries and stylesheets.
//!
//! `Host::eval` gives the value of an expression at what it can read, exactly as its meaning has
//! it: the same list and the same next number of a tree, or the code of the first error, or that a
//! call needs one more call open than there may be. What a declared function does is handed in as a
//! closure, and what key() finds as a method of `Callee`, so that this crate knows no program.
//!
//! Example: `1 + 1` evaluates to the list of 2 in every program.
#![tactic(auto)]

mod calling;
mod choices;
mod evaluations;
mod hosts;
mod lates;

pub use hosts::{Callee, Host};
