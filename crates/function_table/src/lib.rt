//! The table of the functions that every expression may call (XQuery 1.0 and XPath 2.0 Functions and Operators).
//!
//! One table has each function with its name and the numbers of arguments that it takes. `find` gives the function of a
//! name and a number of arguments, and None exactly where the table has none; `is_known` also counts `doc`, which the
//! table leaves out. Functions of stylesheets alone are not here.
//!
//! Example: `find` of `concat` with 3 arguments is `Builtin::Concat`, and with 1 argument it is None.
#![tactic(auto)]

mod builtins;
mod look_up;
mod rows;

pub use builtins::Builtin;
pub use look_up::{find, is_in_fn, is_known};
