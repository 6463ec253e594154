//! What an evaluator does between the evaluations of parts, value by value (XPath 2.0, 3.2 to 3.5
//! and 3.10; XQuery 1.0, 3.8).
//!
//! Operators on evaluated operands, steps along axes, what a predicate keeps, what a path gives,
//! and the order of rows of keys. Each call answers exactly the value, or the code of the first
//! error, that the meaning of expressions has at that place.
//!
//! Example: `step` along the child axis from an atom fails with XPTY0020.

mod lists;
mod operators;
mod orders;
mod places;
mod predicates;
mod steps;

pub use lists::{append, one};
pub use operators::{OneOperator, Operator, apply, apply_to_one};
pub use orders::{key_cell, sorted_places};
pub use places::Place;
pub use predicates::{is_kept, typed};
pub use steps::{path_nodes, path_value, step};
