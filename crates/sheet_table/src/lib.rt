//! The elements of a stylesheet as data: which attributes each must have and may have, which values
//! they take, what its content is, and which elements and attributes of the standard are left out
//! (XSLT 2.0, appendix D).
//!
//! `check_attributes` is the one rule over that table: XTSE0010 of an attribute that is missing,
//! XTSE0090 of one that is not allowed, XTUN0001 of one that is left out, and XTSE0020 or XTUN0001
//! of a value that the attribute does not take.
//!
//! Example: `<xsl:if/>` breaks XTSE0010, `<xsl:sort lang="en"/>` breaks XTUN0001, and
//! `<xsl:sort order="up"/>` breaks XTSE0020.
#![tactic(auto)]

mod attributes;
mod choices;
mod contents;
mod elements;
mod rows;
mod rules;
pub mod sheet_nodes;
mod texts;

pub use attributes::{attribute, has};
pub use contents::{Content, content_of, holds_body, leads};
pub use elements::{XslElement, is_left_out_element, misplaced, xsl_element};
pub use expr_names;
pub use rules::{check_attributes, check_literal_attributes};
