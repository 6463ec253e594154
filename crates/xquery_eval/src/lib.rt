//! Runs queries (XQuery 1.0, 2.2.3 and 4).
//!
//! `run_query` gives the items of a query at a document, exactly as its meaning has them, with at
//! most so many calls of its functions open. The external variables take the values that are handed
//! in, as untyped atoms; documents that doc() finds are those of the set.
//!
//! Example: the query `declare function local:f($n) { $n + 1 }; local:f(1)` gives 2 where one call
//! may be open, and needs more where none may.
#![tactic(auto)]

mod calls;
mod functions;
mod globals;
mod params;
mod runs;

pub use eval_scopes;
pub use params::Param;
pub use runs::{run_query, run_query_in};
