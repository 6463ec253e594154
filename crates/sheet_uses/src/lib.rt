//! What the expressions and instructions of a stylesheet use of what is declared around them:
//! variables, functions, named templates and modes (XSLT 2.0, 3.1 and 9 to 10).
//!
//! `push_expr_uses`, `push_body_uses`, `push_bound_uses` and `push_callee_uses` put what is used
//! after a list, in reading order. A variable that is bound within the part itself is not told.
//! Only
//! the forms of XPath are looked into, since no others stand in a stylesheet.
//!
//! Example: `for $x in $y return f:g($x, key('k', 1))` uses the variable `y`, the function `f:g` with
//! two arguments, and the function `key` with two, whose first one is the literal `k`.
#![tactic(auto)]

mod bodies;
mod callees;
mod exprs;
pub mod key_calls;
mod leaves;
mod uses;
mod values;

pub use bodies::{push_body_uses, push_bound_uses};
pub use callees::push_callee_uses;
pub use exprs::push_expr_uses;
pub use uses::Use;
