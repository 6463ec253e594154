//! A query as it is printed means the query, its text spells it, and what is read of the text is
//! the query (XQuery 1.0, 4 and A). Definitions and laws alone.
//!
//! The modules, lowest first:
//!
//! - `query_raws`: Queries as they are printed.
//! - `printed_queries`: A query as it is printed means the query.
//! - `printed_texts`: The text of a query that is printed spells the query.
//! - `printed_reads`: What is read of the text of a query that is printed is the query.
#![tactic(auto)]

pub mod printed_queries;
pub mod printed_reads;
pub mod printed_texts;
pub mod query_raws;
