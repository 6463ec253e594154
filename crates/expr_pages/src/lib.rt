//! Expressions on pages: what waits in a draft is written form by form, until all of it is tokens
//! (XPath 2.0, A; XQuery 1.0, A).
//!
//! `settled` gives the page with just the tokens that the draft stands for. No expression is walked
//! down by a call within a call, so how deep it nests takes no stack.
//!
//! Example: the sum of `1` and the product of `2` and `3` is `1 + 2 * 3`, and the product of the
//! sum of `1` and `2` with `3` is `( 1 + 2 ) * 3`.
#![tactic(auto)]

pub mod element_drafts;
mod forms;
mod settling;

pub use settling::{expr_page, settled};
