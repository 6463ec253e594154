//! What a part of an expression means, and what productions take of their parts.
//!
//! A production of the grammar of expressions gives a part (`Meant`) from those that its own parts
//! give. The functions for that, here and in the crates above, are total: where a part is not what
//! the grammar puts there, something plain is in its place. A function that can break a static
//! rule gives its part exactly where no rule is broken, and else the code of the first.
//!
//! Example: of the parts of `f(1)` the first is the token `f`, whose name `written_of` gives.

mod meant;
mod names;
mod parts;

pub use meant::Meant;
pub use names::{target_in, written_in, written_of, written_test_in};
pub use parts::{as_part, expr_in, expr_of, exprs_of, has_parts, key_of, no_items};
