//! Drafts of queries: tokens, and expressions that are still to be written (XPath 2.0, A; XQuery
//! 1.0, A).
//!
//! A draft is filled from its end, as the definition of the tokens of an expression has it. An
//! expression is put onto it as it is, with the place where it stands: contracts see the tokens that
//! spell it there, in parentheses where it binds too loosely. So what writes one form of expressions
//! asks nothing of what writes others, and no expression is walked down.
//!
//! Example: the expression `1 + 2`, put where a factor is wanted onto an empty draft, is the tokens
//! `( 1 + 2 )`.
#![tactic(auto)]

mod commas;
mod drafts;
pub mod expr_places;
pub mod name_prefixes;
pub mod name_tokens;
mod spots;

pub use commas::push_comma;
pub use drafts::{Draft, Item, Part};
pub use spots::Spot;
