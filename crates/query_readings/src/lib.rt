//! What queries are read of a text, as one function of its characters (XQuery 1.0, 2.3.1, 4 and A).
//!
//! xquery_syntax says by a relation which answer of its parser is right. `query_reading` is that
//! answer as a function: of the ways to part the text into tokens and pieces of direct elements it
//! takes the first that spells a query, and then the resolver tells what that means or the code of
//! the first rule that it breaks.
//!
//! Example: the text `1 + 1` is read as an addition, `1 +` as nothing, and `$x` breaks XPST0008.
#![tactic(auto)]

mod laws;
mod queries;
pub mod query_partings;

pub use laws::{answers_the_reading, reads_what_is_spelled, reads_what_is_written};
pub use queries::parse_text;
