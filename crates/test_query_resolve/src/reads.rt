// What is read of the text of a query.
use query_grammar::RawQuery;
use query_texts::{QueryReading, read_query};
use std::alloc::AllocGlobal;
use std::process::Abort;

// The query that the text is.
pub(crate) fn query_in(rt: &(impl Abort + AllocGlobal), text: &str) -> RawQuery {
    match read_query(rt.alloc(), text, 400).expect(rt, "memory") {
        QueryReading::Value(raw) => raw,
        _ => panic!(rt; "no query"),
    }
}
