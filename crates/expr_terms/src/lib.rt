//! The terms of the grammar of XPath expressions and of the expressions of queries: tokens and the
//! pieces of direct elements, the table of productions, and the raw values that they give.
//!
//! Tokens, their classes and the names of productions are those of `expr_keys`. The definitions stand in `specs/`:
//! `Productions` (the table), `Choices` (what the next tokens tell of the production), `Raws` (the value of a
//! production, from those of its parts).
//!
//! Example: `body(Production::Predicated)` is the token `[`, an `Expr` and the token `]`, and the
//! value of that production is the value of its `Expr`.
#![tactic(auto)]

mod bodies;
mod choices;
mod levels;
mod raws;

pub use bodies::{body, keeps, of_queries, passes, speaks};
pub use choices::{Second, Starter, choose, pick, second_of, starter_of};
pub use expr_keys::{
    Class, Key, Language, Level, Nonterminal, Production, Symbol, Token, begins, begins_step,
    binding_power, binding_power_of_key, code, fits, fits_function, fits_key, fits_name, fits_wild,
    fits_word, is_axis, is_reserved, is_worded, key_text, same_key, tight,
};
pub use raws::{Raw, build};
