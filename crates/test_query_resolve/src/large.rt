// Many declarations.
use crate::reads::query_in;
use query_resolve::resolve_query;
use std::alloc::AllocGlobal;
use std::process::Abort;

// External variables of so many names, and `1`.
fn variables(rt: &(impl Abort + AllocGlobal), count: u32) -> String {
    let mut out = String::new(rt.alloc());
    for number in 0..count {
        let one = format!(in rt.alloc(); "declare variable $v{number} external;").expect(
            rt, "memory",
        );
        out.push_str(one.as_str()).expect(rt, "memory");
        drop(one);
    }
    out.push_str("1").expect(rt, "memory");
    out
}

#[test]
fn a_hundred_thousand_variables(rt: HostRuntime) {
    let text = variables(&rt, 100_000);
    let raw = query_in(&rt, text.as_str());
    drop(text);
    let query = resolve_query(rt.alloc(), &raw).expect(&rt, "a query");
    drop(raw);
    assert_eq!(rt; query.variables.len(), 100_000);
    drop(query);
}
