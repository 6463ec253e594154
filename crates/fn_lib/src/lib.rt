//! The library of functions: one call for every function that expressions may call (XQuery 1.0
//! and XPath 2.0 Functions and Operators).
//!
//! `find` gives the function of a name and a number of arguments, and `call` what it answers:
//! exactly the value, or the code of the first error, that `function_value` in `specs/` says,
//! which has one line a function. What a function reads of the focus is handed in as its first
//! argument: the position, the size, the string value of the focus item (`string-length`,
//! `normalize-space`), or the focus item itself. A call asks nothing of its arguments: one that
//! is left out at the end counts as the empty list, and those past the last are passed over.
//!
//! Example: `call` of `Builtin::Concat` and of the lists of `"a"` and of 1 gives `"a1"`.
#![tactic(auto)]

mod arguments;
mod arities;
mod calls;
mod values;

pub use arguments::argument;
pub use calls::call;
pub use function_table::{Builtin, find};
