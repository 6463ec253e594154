//! What the table of productions is looked up by: keys, tokens and their classes, and the names of levels,
//! nonterminals and productions. The table itself stands in `expr_terms`.
//!
//! The definitions stand in `specs/`: `Keys` and `Tokens` (what a token is, and how far out it may come after a
//! value), `Classes` (which tokens a class has).
//!
//! Example: `fits(Class::Name, &Token::Key(Key::IfWord))` is true, since each word that a production names is a
//! name too; `fits_function` of that token is false, since `if` names no function.
#![tactic(auto)]

mod classes;
mod keys;
mod productions;
mod tokens;

pub use classes::{
    begins, begins_step, fits, fits_axis, fits_function, fits_key, fits_name, fits_wild, fits_word,
    tight,
};
pub use keys::{
    Key, binding_power_of_key, code, is_axis, is_reserved, is_worded, key_text, same_key,
};
pub use productions::{Class, Language, Level, Nonterminal, Production, Symbol};
pub use tokens::{Token, binding_power};
