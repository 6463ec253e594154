//! Constructors on drafts (XQuery 1.0, 3.7).
//!
//! Each call puts just the tokens of one form before those of the draft; its parts are put as the
//! expressions that they are, with the places where they stand. The content of computed constructors
//! is wanted on lines of its own; within direct elements there is one space between tokens. Nothing
//! is put where a name has no token.
//!
//! Example: `text { 1 }` is put as `text`, `{`, the part `1` and `}`.

mod direct;
mod elements;
mod runs;

pub use direct::push_direct;
pub use elements::{push_attribute, push_element, push_enclosing, push_instruction};
