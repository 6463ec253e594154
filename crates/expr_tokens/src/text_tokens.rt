//! The tokens of a text as one function of its characters (XPath 2.0, A.2).
//!
//! xpath_lex says by a relation which tokens a text has, at most one list. `lexed` is that list as
//! a function, so that what is read of a text can be a function of the text too.
//!
//! Example: the tokens of `a -1` are the Word `a`, the Symbol `-` and the Integer `1`, and `"` has
//! none.

mod laws;
mod lexing;

pub use laws::{faults_are_not_lexed, tokens_are_lexed};
pub use lexing::lexed;
