//! Names and texts that XML allows, and regular expressions and types with such texts: what an
//! expression that breaks no rule means is one (XPath 2.0, 2.1.1 and 3). Definitions and laws
//! alone.
//!
//! The modules, lowest first:
//!
//! - `sound_forms`: Names and texts that XML allows, and forms of expressions that are regular
//!   with such texts.
//! - `expr_regular`: What expressions mean that break no rule.
#![tactic(auto)]

pub mod expr_regular;
pub mod sound_forms;
