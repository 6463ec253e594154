//! Which raw values of the grammar have the shape of a pattern (XSLT 2.0, 5.5.2).
//!
//! A pattern is alternatives joined by `|`. An alternative is `/` alone, or steps joined by `/` and
//! `//` with or without one of these at the front. A step is on the axis child or attribute. What its
//! test is and what its predicates are is not looked at here.
//!
//! Example: the raw values of `a/@b | //c[1]` and of `/` have this shape; those of `a union b`, of
//! `(a)` and of `a/..` have not.

mod parts;
mod shapes;

pub use parts::{inner_step, is_behind_slashes};
pub use shapes::{is_alternative, is_barred, is_pattern, is_step};
