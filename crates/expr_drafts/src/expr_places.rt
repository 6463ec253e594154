//! How tightly expressions bind, and so where parentheses stand around operands (XPath 2.0, A.4;
//! XQuery 1.0, A.4).
//!
//! `Operand::place` tells how tightly an expression binds, from primary expressions to lists; a part
//! is in parentheses where its place is greater than the one that is allowed there. An operator
//! that other ones of its level may come before allows its own place at its left, but where the
//! left operand ends in a type that would take the operator for its mark, as in
//! `( 1 instance of xs:integer ) * 2`, that one is in parentheses.
//!
//! Example: the place of `1 + 2` is that of additions, 11, and `*` allows 10 at its left, which is
//! its own.

mod operators;
mod places;

pub use operators::{Operator, arithmetic, chained, compare_key, once, slash, value_key};
pub use places::{LIST, Operand, PATH, PRIMARY, SIGNS, SINGLE, STEP, is_root};
