//! What steps, paths, primary expressions and constructors mean, from what their parts mean (XPath
//! 2.0, 3.1 and 3.2; XQuery 1.0, 3.7).
//!
//! The modules, lowest first:
//!
//! - `expr_paths`: What steps, paths and primary expressions mean, from what their parts mean.
//! - `expr_elements`: What direct elements and computed constructors mean, from what their parts
//!   mean.
#![tactic(auto)]

pub mod expr_elements;
pub mod expr_paths;

pub use expr_rules;
pub use expr_rules::expr_names;
