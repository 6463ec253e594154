//! What direct elements and computed constructors mean, from what their parts mean (XQuery 1.0,
//! 3.7).
//!
//! Each call is total: its value is that of the definition that its contract names, and it fails
//! only where memory runs out. Static rules are those of expr_rules.
//!
//! Example: of characters that are literal white space, `{ 1 }` and `a`, the content that
//! `content` makes with boundary white space stripped is `{ 1 }` and `a`.

mod direct;
mod makers;
mod space;
mod tables;

pub use direct::{attribute, child, content, element, enclosed};
pub use makers::{computed, constructed, enclosing, pi_constructed};
pub use space::{Joined, Piece};
pub use tables::element_value;
