//! Which global variables and parameters of a stylesheet depend on which others (XSLT 2.0, 9.5).
//!
//! `global_needs` tells for each global the places of those on which it depends: those that its own
//! value names, and those that are named in what it reaches. It reaches the functions and templates
//! that it calls, and the rules of the modes in which it applies templates, and all that these reach.
//! The mode `#current` is the default mode in the global itself, in functions, and in templates that
//! these call by name; elsewhere the mode that it stands for is reached already. `needed_order` puts
//! the globals in the order in which they are evaluated, and `globals_stand_behind` tells whether
//! each comes after those on which it depends.
//!
//! Example: where `x` is `f:a()`, the function `f:a` applies templates in the default mode, and a rule
//! of that mode names `$y`, `x` depends on `y`.
#![tactic(auto)]

mod needs;
mod rows;
mod shapes;
mod tables;

pub use needs::{global_needs, globals_stand_behind, needed_order};
