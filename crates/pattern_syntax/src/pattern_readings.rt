//! What patterns are read of a text, as one function of its characters (XSLT 2.0, 5.5.2).
//!
//! pattern_syntax says of its parser that there are tokens of the text for which it gives this or
//! that. Here these tokens are those that text_tokens gives.
//!
//! Example: the text `a|b` is read as two alternatives, and `a +` as nothing.

mod laws;
mod patterns;

pub use laws::{each_text_is_lexed, reads_what_is_spelled};
pub use patterns::parse_text;
