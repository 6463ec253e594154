//! The parser of queries (XQuery 1.0, 2 and A).
//!
//! `parse_query` gives the query that a text spells, where its expressions nest no deeper than 400
//! levels and it breaks no static rule. Such a query is closed. Each other answer has one cause too:
//! no two are right of one text, unless memory runs out.
//!
//! Example: `declare variable $x := 1; $x` is a query with one variable, `$x` alone breaks
//! XPST0008, and `<a></b>` spells nothing.
#![tactic(auto)]

mod laws;
mod parsing;
pub mod prolog_laws;
pub mod query_laws;
mod shapes;

pub use laws::{answers_one, spells_one};
pub use parsing::parse_query;
