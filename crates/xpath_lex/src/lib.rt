//! The tokens of XPath and XQuery expressions (XPath 2.0, A.2).
//!
//! At a place, after white space and nested comments, the longest token is taken. `token_at` gives
//! the token at a place, `tokens` all tokens of a text; both say at which byte no token begins. A
//! token is a slice of the text, and nothing is decoded. specs/Tokens.antt says what a token is, by
//! classes of characters, and which one is the longest; a text has at most one list of tokens. No
//! depth of comments takes stack of the machine.
//!
//! Example: `tokens(alloc, "a -1")` are the Word `a`, the Symbol `-` and the Integer `1`, and
//! `tokens(alloc, "a-1")` is one Word.
#![tactic(auto)]

mod classes;
mod faults;
mod gaps;
mod laws;
mod lexing;
mod parts;
mod scans;

pub use faults::LexFault;
pub use laws::{lists_are_one, tokens_are_one};
pub use lexing::{Token, TokenKind, token_at, tokens};
