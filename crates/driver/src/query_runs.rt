//! What the command `query` gives: the text of a query's items on documents, as files hold them.
//!
//! `query_text` loads and reads the query, then the documents, strips these of the white space that
//! the query's options name, runs the query, and writes its items as text.
//!
//! Example: over files that hold `<b>{count(//a)}</b>` as q.xq and `<a><a/></a>` as d.xml, the text
//! is `<?xml version="1.0" encoding="UTF-8"?><b>2</b>`.

mod evaluate;
mod query;

pub use query::query_text;
