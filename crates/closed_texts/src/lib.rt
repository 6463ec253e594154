//! The texts of stylesheets that break no rule mean names, expressions, value templates and
//! patterns of closed stylesheets (XSLT 2.0, 5). Laws alone.
//!
//! The modules, lowest first:
//!
//! - `closed_names`: Names in attributes of stylesheets that break no rule.
//! - `named_keys`: Expressions of stylesheets, in which the names of keys stand in place of the
//!   literals that write them.
//! - `sheet_laws`: What is known of texts of stylesheets that break no rule.
//! - `closed_expressions`: What texts of stylesheets mean as expressions and as attribute value
//!   templates that break no rule.
//! - `pattern_cuts`: The steps of patterns, each read of its own tokens alone.
//! - `closed_patterns`: What texts of stylesheets mean as patterns that break no rule.
#![tactic(auto)]

pub mod closed_expressions;
pub mod closed_names;
pub mod closed_patterns;
pub mod named_keys;
pub mod pattern_cuts;
pub mod sheet_laws;
