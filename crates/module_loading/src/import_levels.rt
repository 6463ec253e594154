//! Import precedence (XSLT 2.0, 3.10.3): definitions and laws alone.
//!
//! `Links` in specs/ is the tree of the modules of a stylesheet as they are loaded, depth first. A
//! level is a module with all that it includes; levels are numbered from 1 in post-order, so that an
//! importing level lies above those that it imports, and of two imports the later one above the
//! earlier.
//!
//! Example: where a module imports `x` and `b`, and `b` imports `c`, `x` has the level 1, `c` 2,
//! `b` 3 and the module 4; a module that `b` includes has the level 3 too.

mod laws;

pub use laws::{imports_lie_below, levels_are_told, levels_nest};
