//! The text of a query to its raw value (XQuery 1.0, 4 and A).
//!
//! `read_query` gives the query that a text spells, where none of its expressions nests deeper than
//! the limit. A text spells a query where some way to part it into tokens and pieces of direct
//! elements does: whether `<` before a name is an operator or the front of an element, nothing but
//! the grammar tells. The reading goes from token to token, and asks before each whether an operand
//! may be there.
//!
//! Example: `declare variable $a := 1; $a + 1` is a query with one declaration.
#![tactic(auto)]

mod bodies;
mod laws;
mod orders;
mod readings;
mod texts;

pub use laws::spells_one;
pub use readings::QueryReading;
pub use texts::read_query;
