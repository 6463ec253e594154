//! Expressions on their own (XPath 2.0, 2.1 and 3).
//!
//! `eval_plain` gives the value of an expression where no function is declared, with variables and
//! documents that are handed in, as a sequence that is walked on demand: exactly the value, or the
//! code of the first error, that the meaning of expressions has.
//!
//! Example: `$n + 1` where `n` is bound to 1 gives 2.
#![tactic(auto)]

mod plain;
mod variables;

pub use plain::{Focus, eval_plain};
pub use variables::Vars;
