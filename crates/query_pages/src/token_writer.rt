//! Tokens of queries, and pieces of direct elements, written at the end of a text (XQuery 1.0,
//! 3.1.1, 3.7.1 and A.2).
//!
//! Literals and values of attributes stand between double quotes. In a literal a quote is doubled,
//! and `&` and a carriage return are references. Characters of content and of values are written as
//! they are, a brace (and in a value a quote) that stands alone is doubled, and characters that
//! came of a reference are written as one.
//!
//! Example: the token of the literal `a"b` is written `"a""b"`, the piece `{` of content `{{`.

mod characters;
mod tokens;

pub use tokens::{push_piece, push_token};
