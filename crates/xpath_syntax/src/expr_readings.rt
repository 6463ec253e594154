//! What expressions and sequence types are read of a text, as one function of its characters (XPath
//! 2.0, 2.5.3 and A).
//!
//! xpath_syntax and expr_reader read tokens, and text_tokens gives those of a text. Here the two
//! are joined, so that who reads texts in a place can say what they mean there by a function of
//! place and text.
//!
//! Example: the text `a (: b :) + 1` is read as the addition of a step and a number, `a +` as
//! nothing, and `1 + -(1)` as too deep for the limit of 2.

mod expressions;
mod laws;
mod raws;

pub use expressions::parse_text;
pub use laws::{reads_what_is_spelled, reads_what_is_written, spells_one};
pub use raws::{raw_expression, raw_type};
