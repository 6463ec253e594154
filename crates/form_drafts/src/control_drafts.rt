//! Conditionals, quantifiers and FLWOR expressions on drafts (XPath 2.0, 3.7 to 3.9; XQuery 1.0,
//! 3.8).
//!
//! Each call puts just the tokens of one form before those of the draft; its parts are put as the
//! expressions that they are, with the places where they stand. Branches and clauses are wanted on
//! lines of their own.
//!
//! Example: `let $a := 1 return $a` is put as `let`, `$a`, `:=`, the part `1`, `return` and the part
//! `$a`.

mod control;
mod flows;

pub use control::{push_if, push_quant};
pub use flows::push_flwor;
