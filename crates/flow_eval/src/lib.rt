//! FLWOR expressions (XQuery 1.0, 3.8).
//!
//! `Flows::eval_flwor` gives the value of a FLWOR expression at what it can read, exactly as its
//! meaning has it. What evaluates the expressions within it is handed in as a closure, which need
//! take none that has more nodes than the whole.
//!
//! Example: `for $x in (1, 2) return $x + 1` gives the list of 2 and 3.
#![tactic(auto)]

pub mod flow_streams;
mod flows;
mod inner;
mod rows;
mod streams;

pub use inner::Flows;
