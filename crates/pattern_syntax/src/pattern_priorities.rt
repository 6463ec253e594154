//! Default priorities of patterns (XSLT 2.0, 6.4).
//!
//! `default_priority` gives the priority that a template rule has by its pattern alone, in thousandths.
//!
//! Example: `a` has 0, `p:*` -250, `*` -500, and `a[1]` and `a/b` have 500.

mod priorities;

pub use priorities::default_priority;
