//! The functions on numbers and on values in an order (XQuery 1.0 and XPath 2.0 Functions and
//! Operators, 6.4.1, 15.4.3, 15.4.4 and 15.4.5).
//!
//! `sum`, `max`, `min` and `abs` give exactly the value, or the first error, that their
//! definitions in `specs/` say. An untyped atom counts as the integer that it spells; where the
//! Recommendation has doubles, integers stand here. The sum itself has no limit, so that items in
//! the middle may pass the range of integers.
//!
//! Example: the sum of 7 and the untyped atom `5` is 12, and the greatest of `10` and `9`, both
//! untyped, is 10.

mod extremes;
mod sums;

pub use extremes::{max, min};
pub use sums::{abs, sum};
