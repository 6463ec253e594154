//! Whether expressions nest within a limit (XPath 2.0, 3; XQuery 1.0, 3).
//!
//! `nests_within` is exact, and goes down no further than the limit, so that an expression of any
//! depth may be asked.
//!
//! Example: `1 + 2` nests within 2 levels and not within 1.

mod limits;

pub use limits::nests_within;
