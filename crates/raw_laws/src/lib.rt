//! The raw value of an expression that can be printed: its tokens spell it, and it breaks no static
//! rule, nests no deeper than the expression and has elements that end alike. Laws alone.
//!
//! The modules, lowest first:
//!
//! - `expr_spellings`: The tokens of an expression that can be printed spell it.
//! - `clean_raws`: The raw value of an expression that can be printed breaks no static rule.
//! - `nest_raws`: The raw value of an expression that can be printed nests no deeper than the
//!   expression.
//! - `shaped_raws`: The direct elements of the raw value of an expression that can be printed end
//!   alike, and none has an attribute `xmlns`.
#![tactic(auto)]

pub mod clean_raws;
pub mod expr_spellings;
pub mod nest_raws;
pub mod shaped_raws;
