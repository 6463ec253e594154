//! How a form that is in a crate of its own has its parts evaluated.
//!
//! The evaluator of expressions is one cycle of functions that call each other. A form with many
//! functions of its own is kept out of that cycle: it is handed what evaluates the expressions
//! within it as a closure, together with the program that they stand in, and the closure need take
//! no expression with more nodes than the form has. So the evaluator still ends, and each of the
//! two is proved without the other.
//!
//! specs/Inner.antt says when a closure may be called so, and what its answers stand for.

mod forms;
mod within;

pub use forms::Form;
pub use within::{Calling, Within};
