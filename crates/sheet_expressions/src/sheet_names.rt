//! Which names that the parts of a stylesheet use are not declared (XPath 2.0, 3.1.2 and 3.1.5; XSLT
//! 2.0, 10.1 and 16.3).
//!
//! `broken_use` tells the rule that one use breaks, where a stylesheet declares these variables,
//! functions, templates and keys, and `push_broken_uses` does so of many uses, in order.
//!
//! Example: where the variable `x` alone is declared, `$y` breaks XPST0008, `f:g(1)` breaks XPST0017
//! and `key('k', 1)` breaks XTDE1260, and `$x` and `current()` break none.

mod names;
mod uses;

pub use names::{Names, with_key};
pub use uses::{broken_use, push_broken_uses};
