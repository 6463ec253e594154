//! The tokens of a text as the tokens of the grammar of expressions (XPath 2.0, A.2).
//!
//! A word or a symbol that some production names is a key; digits are a number, which is to be an
//! integer of 64 bits; a literal is without its quotes, and of two quotes inside one stays; a name
//! with a colon is its two parts. `terms` gives the tokens of a whole text, or none where one of
//! them is in no production.
//!
//! Example: the tokens of `if ('a''b')` are the key `if`, the key `(`, the literal `a'b` and the
//! key `)`.
#![tactic(auto)]

mod bridge;
mod keys;
mod laws;
mod literals;
pub mod text_tokens;

pub use bridge::{term, terms};
pub use keys::{key_of_symbol, key_of_word};
pub use laws::keys_are_found;
pub use literals::{number, unquoted};
