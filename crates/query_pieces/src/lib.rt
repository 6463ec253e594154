//! The text of a query as tokens of expressions and pieces of direct elements (XQuery 1.0, 3.7.1
//! and A.2).
//!
//! `Pieces` reads a text from its beginning on. Between tokens of expressions white space and
//! comments are passed over, and the longest token is taken; in a literal references are resolved
//! and line ends are line feeds. Within direct elements tags, characters and braces are pieces, by
//! the contexts that are open; a million of them, one inside the other, take no stack of the
//! machine. Whether `<` before a name is an operator or the front of an element is for the reader
//! of the grammar to say, which knows whether an operand may be there. specs/Readings.antt says
//! what may be read where.
//!
//! Example: `<a b="1">{2}</a>` is the front of `a`, the front of its attribute `b`, the characters
//! `1`, the closing quote, the end of the tag, `{`, the integer `2`, the key `}` and the end tag
//! of `a`.
#![tactic(auto)]

mod aheads;
mod classes;
mod contexts;
mod elements;
mod laws;
mod literals;
mod names;
mod pieces;
mod references;
mod scans;
mod seconds;
mod spellings;
mod stacks;

pub use aheads::Ahead;
pub use contexts::{Before, Change, Context, Quote};
pub use laws::reads_one;
pub use pieces::{Found, Pieces, asks, second};
