//! Which variables and functions are in scope where they are named (XPath 2.0, 2.1.1 and 3.1).
//!
//! `broken_names` goes over an expression and tells the first rule on names that it breaks: XPST0008 of a variable that
//! is not in scope, and XPST0017 of a function that is not known with so many arguments. A `VariableScope` is the variables that
//! are in scope at a place, and `Functions` those that are declared besides the ones of the table.
//!
//! Example: without variables in scope `for $x in 1 return $x` breaks no rule, and `(for $x in 1 return 2, $x)` breaks
//! XPST0008.
#![tactic(auto)]

mod broken;
mod faults;
mod functions;
mod leaves;
mod params;
mod scopes;

pub use broken::broken_names;
pub use faults::earlier;
pub use functions::{Functions, Signature};
pub use params::param_names;
pub use scopes::{VariableScope, names_differ};
