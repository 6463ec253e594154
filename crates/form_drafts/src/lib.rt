//! The forms of expressions on drafts: names, node tests and types, operators, calls and paths,
//! conditionals, quantifiers and FLWOR expressions (XPath 2.0, A; XQuery 1.0, A).
//!
//! The modules, lowest first:
//!
//! - `leaf_pages`: What expressions are made of on drafts.
//! - `operator_drafts`: Operators, lists, calls and paths on drafts.
//! - `control_drafts`: Conditionals, quantifiers and FLWOR expressions on drafts.
#![tactic(auto)]

pub mod control_drafts;
pub mod leaf_pages;
pub mod operator_drafts;
