//! The static rules of a stylesheet that no module breaks alone (XSLT 2.0, 9.5, 10.1, 10.3 and 20).
//!
//! `push_doubles` finds what is declared twice at one import precedence, `push_broken_passing` the
//! parameters that calls of templates pass in vain or leave out, and `push_outputs` the
//! declarations of the output that contradict each other. Each puts the codes of the rules that
//! are broken after a list. `first_wide` tells which of the broken rules a stylesheet is refused
//! for.
//!
//! Example: two templates of the name `t` in one module break XTSE0660, one in a module and one in
//! a module that it imports break nothing.

mod doubles;
mod first;
mod outputs;
mod passing;
mod placed;

pub use doubles::push_doubles;
pub use first::first_wide;
pub use outputs::push_outputs;
pub use passing::{Parameters, parameters_of, push_broken_passing};
