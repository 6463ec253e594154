//! The tokens of an expression that can be printed can be written, and what follows the expression
//! begins after them (XPath 2.0, A.2; XQuery 1.0, A.2). Definitions and laws alone.
//!
//! The modules, lowest first:
//!
//! - `written_tokens`: The tokens of an expression that can be printed can be written, where
//!   their texts can.
//! - `fit_tokens`: The texts of the tokens of an expression can be written, where its names and
//!   texts are those that XML allows.
//! - `ended_tokens`: What follows an expression comes after its tokens, whatever it is.
#![tactic(auto)]

pub mod ended_tokens;
pub mod fit_tokens;
pub mod written_tokens;
