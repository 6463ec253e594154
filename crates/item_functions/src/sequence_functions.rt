//! The functions on sequences (XQuery 1.0 and XPath 2.0 Functions and Operators, 15.1, 15.2 and
//! 15.4.1).
//!
//! Each function gives exactly the sequence, or the error, that its definition in `specs/` says.
//! Positions count from 1; they and the sums of them are whole numbers without limit. The items of
//! an answer share their parts with the items that were handed in, and only those are copied that
//! stand in it.
//!
//! Example: `subsequence` of `(a, b, c)` from -1 on, 4 items long, has the positions below 3,
//! which are those of `a` and `b`.

mod cardinality;
mod copies;
mod positions;
mod values;

pub use cardinality::{count, exactly_one, has_item, has_no_item, one_or_more, zero_or_one};
pub use copies::copied;
pub use positions::{index_of, insert_before, remove, reverse, subsequence, subsequence_from};
pub use values::distinct_values;
