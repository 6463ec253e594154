// What tests of the printer share.
use query_printer::{is_printable, print};
use std::alloc::AllocGlobal;
use std::process::Abort;
use xquery_syntax::parse_query;
use xt_names::Text;
use xt_syntax::Query;

// what every query without namespaces begins with
pub(crate) const HEAD: &str = "xquery version \"1.0\" ;\ndeclare boundary-space preserve ;\n";

pub(crate) fn made(rt: &(impl Abort + AllocGlobal), text: &str) -> Text {
    Text::make(rt.alloc(), text).expect(rt, "memory")
}

// the text of the query, or `no` where it cannot be printed
pub(crate) fn text_of(rt: &(impl Abort + AllocGlobal), query: &Query) -> Text {
    match is_printable(query) {
        Ok(true) => print(rt.alloc(), query).expect(rt, "memory"),
        Ok(false) => made(rt, "no"),
        Err(_) => made(rt, "memory"),
    }
}

// the query as it is printed, or `none` where the text is no query
pub(crate) fn printed(rt: &(impl Abort + AllocGlobal), text: &str) -> Text {
    match parse_query(rt.alloc(), text) {
        Err(_) => made(rt, "none"),
        Ok(query) => {
            let out = text_of(rt, &query);
            drop(query);
            out
        }
    }
}

fn put(rt: &(impl Abort + AllocGlobal), out: &mut String, text: &str) {
    out.push_str(text).expect(rt, "memory");
}

// whether the query is printed so, and that as it is
pub(crate) fn is_printed(
    rt: &(impl Abort + AllocGlobal),
    text: &str,
    front: &str,
    rest: &str,
) -> bool {
    let mut expected = String::new(rt.alloc());
    put(rt, &mut expected, front);
    put(rt, &mut expected, rest);
    let once = printed(rt, text);
    let twice = printed(rt, once.as_str());
    let same = once.as_str() == expected.as_str() && twice.as_str() == expected.as_str();
    drop(once);
    drop(twice);
    same
}
