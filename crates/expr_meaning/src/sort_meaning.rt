//! Lists in the order of their keys, as `order by` and xsl:sort have them: definitions and laws
//! alone, nothing runs.
//!
//! The keys of all values come first, value by value and column by column, and then the one stable
//! order of the rows. A key of more than one atom is an error at once; a column that has no order,
//! as of a text and an integer, is one after all keys.
//!
//! Example: the order of `b`, `c`, `a` by themselves is `a`, `b`, `c`.

mod laws;

pub use laws::{values_are_visited_by_their_keys, without_keys_values_are_visited_as_they_stand};
