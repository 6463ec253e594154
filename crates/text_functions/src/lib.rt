//! Functions on strings (XQuery 1.0 and XPath 2.0 Functions and Operators, 7).
//!
//! Each call takes the arguments of a function as lists of items, converts them in turn to the types of the parameters and
//! answers exactly what its definition in `specs/` says: the value, or the code of the first error. Only want of memory is
//! left open. The characters of a text are its code points.
//!
//! Example: `substring` of `"motor car"` and 6 is `" car"`.
#![tactic(auto)]

mod codepoints;
mod comparisons;
mod joins;
pub mod name_functions;
mod searches;
mod strings;
mod substrings;

pub use codepoints::{codepoints_to_string, string_to_codepoints};
pub use comparisons::{codepoint_equal, compare};
pub use joins::{concat, string_join};
pub use searches::{contains, ends_with, starts_with, substring_after, substring_before};
pub use strings::{normalize_space, string, string_length, translate};
pub use substrings::{substring, substring_for};
pub use xdm_items;
