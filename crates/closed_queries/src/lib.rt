//! Which queries are closed (XQuery 1.0, 2.2.4 and 4): they name nothing but what they declare.
//!
//! `query_closed` is exact: the definition `is_closed` in `specs/Closed.antt` says what a closed query is, part by part.
//! `has_sound_texts` tells the expressions whose texts and names are those that XML allows.
//!
//! Example: the query `1` is closed, and so is `declare variable $x := 1; $x`; the query `$x` is not.
#![tactic(auto)]

mod closed;
mod expr_texts;
mod names_kept;
mod parts;
pub mod prolog_rules;
mod texts;

pub use closed::query_closed;
pub use expr_texts::has_sound_texts;
pub use texts::{is_sound_expr_name, is_sound_name, is_sound_name_test, is_sound_type};
