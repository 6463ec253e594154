//! Operations on texts: parts, searches, white space and replaced characters (XQuery 1.0 and XPath 2.0 Functions and
//! Operators, 7.4 and 7.5).
//!
//! Contracts see a text as the list of its characters, and each operation is exactly its definition in `specs/`. All take
//! time linear in the lengths of their texts.
//!
//! Example: the parts of `banana` round the first `an` are `b` and `ana`.
#![tactic(auto)]

mod positions;
mod searches;
mod spaces;
mod translations;

pub use positions::{after_chars, between_chars, char_count, count_before, count_before_sum};
pub use searches::{ends_with, split_at_first, starts_with};
pub use spaces::normalized;
pub use translations::translated;
