//! The parts of declarations in a query's prolog that come before their expressions (XQuery 1.0,
//! 4), over tokens: what the first two words open, the declarations without an expression, and the
//! names, parameters and types of variables and functions.
//!
//! Example: `$a as xs:integer` is the variable `a` with its type, and
//! `f($a, $b as item()) as node()` the signature of a function with two parameters.

mod kinds;
mod params;
mod shorts;
mod signatures;
mod variables;
mod words;

pub use shorts::whole_of;
pub use signatures::inner_start;
pub use variables::value_start;
pub use words::{is_head, may_open, opening_of};
