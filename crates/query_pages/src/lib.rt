//! The tokens of a query on a page, and the text of the page (XQuery 1.0, 3.7.1 and A.2).
//!
//! A page is filled from its end: each token is put before those that are there, as the definition
//! of the tokens of an expression has it. With a token stands what is wanted before it: a space, a
//! space where a line may end, or a new line. In the text lines end where they are told to and,
//! where they may, before they would pass some hundred columns. Whatever is between them, the
//! text is one of the texts of the tokens.
//!
//! Example: `)`, `1` and `(`, put onto an empty page in this order, are the text `( 1 )`.
#![tactic(auto)]

mod changes;
mod gaps;
mod lines;
mod pages;
mod placed;
mod stacks;
mod texts;
pub mod token_texts;
pub mod token_writer;

pub use gaps::Gap;
pub use pages::Page;
