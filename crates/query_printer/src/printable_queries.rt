//! What is asked of a query that is printed (XQuery 1.0, 2.2.4 and 4): that its parts have a way to
//! be written, that it breaks no rule, and how deep it nests.
//!
//! `is_kept` and `nests_within` are exact: their contracts name the definitions. `prefixes_in` has
//! the prefixes that the query is written with.
//!
//! Example: the query `declare variable $p:x := 1; $p:x` is kept where it declares a uri for `p`,
//! and a query with a variable of a uri that it declares no prefix for is not.

mod declarations;
mod declared;
mod nests;
mod options;
mod prefixes;
mod queries;
mod rules;

pub use nests::nests_within;
pub use prefixes::prefixes_in;
pub use queries::is_kept;
