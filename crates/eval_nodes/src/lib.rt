//! Nodes as an evaluator makes them (XQuery 1.0, 3.7): the names that constructors compute, the
//! texts of their values, and the trees.
//!
//! Each call answers exactly what the meaning of constructors has at that place: the node with the
//! next number of a tree, or the code of the error. No number is used up where a call fails.
//!
//! Example: `spaced_text` of the integers 1 and 2 is `1 2`.
#![tactic(auto)]

mod contents;
mod makers;
mod names;
mod targets;
mod texts;
mod uris;

pub use contents::{attribute_node, joined_atoms, text_node};
pub use makers::{make_attribute, make_comment, make_document, make_element, make_pi, make_text};
pub use names::{checked_attribute, computed_attribute, computed_element};
pub use targets::{computed_target, fixed_target};
pub use texts::spaced_text;
