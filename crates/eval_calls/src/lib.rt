//! Calls of functions, once their arguments are evaluated (XPath 2.0, 3.1.5; XSLT 2.0, 14.2 and 16).
//!
//! `find_called` says what a name with so many arguments calls: a function of the library, one that reads
//! what a stylesheet adds, or one that the program declares. The other calls give the value of each,
//! but of those that the program declares, and of key(), which an evaluator hands to its program.
//!
//! Example: `position()` at the second of three items is 2.
#![tactic(auto)]

mod arguments;
mod libraries;
mod names;
mod states;

pub use libraries::call_library;
pub use names::{Called, find_called};
pub use states::{current_item, group_key, group_members, key_name, key_root};
