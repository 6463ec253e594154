//! Values that are put where the caller holds them.
//!
//! A function that evaluates an expression is called within itself, as deep as expressions nest and
//! calls are open. It is handed the list that its value replaces, since an answer that holds a list
//! would stand on the stack of each function through which it passes.
//!
//! Each call says of what it leaves there what the function that makes the value says of it, and
//! nothing where there is no value.
//!
//! Example: `apply_to(alloc, Operator::Arith(ArithOp::Add), &right, &mut value)` leaves the list of 3
//! where `value` was the list of 1 and `right` is that of 2.

mod leaves;
mod operators;
mod slots;

pub use leaves::{put_context, put_integer, put_root, put_text, put_truth, put_variable};
pub use operators::{apply_alone, apply_to, check_instance, treat};
pub use slots::{clear, join, put};
