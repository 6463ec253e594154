//! Functions on sequences, numbers, truth values and nodes (XQuery 1.0 and XPath 2.0 Functions and
//! Operators, 6, 9, 14 and 15).
//!
//! Each call takes the arguments of a function as lists of items, converts them in turn to the types
//! of the parameters and answers exactly what its definition in `specs/` says: the value, or the code
//! of the first error. Only want of memory is left open.
//!
//! Example: `sum` of the attributes `a="1"` and `b="2"` is 3.
#![tactic(auto)]

pub mod node_functions;
pub mod number_functions;
mod on_sequences;
mod on_values;
mod outcomes;
pub mod sequence_functions;

pub use on_sequences::{
    count, deep_equal, distinct_values, empty, exists, index_of, insert_before, remove,
    subsequence, subsequence_for,
};
pub use on_values::{abs, boolean, max, min, not, root, sum, sum_with};
