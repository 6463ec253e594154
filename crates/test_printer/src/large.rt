// Large queries.
use crate::texts::{HEAD, is_printed, made, printed, text_of};
use std::alloc::AllocGlobal;
use std::process::Abort;
use xt_names::{List, Shared};
use xt_syntax::{Expr, Query};

fn put(rt: &(impl Abort + AllocGlobal), out: &mut String, text: &str) {
    out.push_str(text).expect(rt, "memory");
}

// the piece so many times, and then the last
fn repeated(rt: &(impl Abort + AllocGlobal), piece: &str, times: usize, last: &str) -> String {
    let mut out = String::new(rt.alloc());
    for _ in 0..times {
        put(rt, &mut out, piece);
    }
    put(rt, &mut out, last);
    out
}

#[test]
fn nesting(rt: HostRuntime) {
    let text = repeated(&rt, "-", 399, "1");
    let expected = repeated(&rt, "- ", 399, "1");
    assert!(rt; is_printed(&rt, text.as_str(), HEAD, expected.as_str()));
}

// a query whose body is a list of so many ones
fn ones(rt: &(impl Abort + AllocGlobal), count: usize) -> Query {
    let mut items = List::new(rt.alloc());
    for _ in 0..count {
        items.push(Expr::Int(1)).expect(rt, "memory");
    }
    Query {
        prefixes: List::new(rt.alloc()),
        element_default: made(rt, ""),
        variables: List::new(rt.alloc()),
        functions: List::new(rt.alloc()),
        body: Expr::Comma(Shared::make(rt.alloc(), items).expect(rt, "memory")),
        space: List::new(rt.alloc()),
        omit: false,
    }
}

// so many ones with commas between them: a line has as many items as stand in 100 columns
fn lines_of_ones(rt: &(impl Abort + AllocGlobal), count: usize) -> String {
    let mut out = String::new(rt.alloc());
    put(rt, &mut out, "1");
    for place in 1..count {
        put(
            rt,
            &mut out,
            if place % 25 == 0 { " ,\n  1" } else { " , 1" },
        );
    }
    out
}

// whether the list of so many ones is printed as it should be
fn are_printed(rt: &(impl Abort + AllocGlobal), count: usize) -> bool {
    let query = ones(rt, count);
    let text = text_of(rt, &query);
    let mut expected = String::new(rt.alloc());
    put(rt, &mut expected, HEAD);
    let lines = lines_of_ones(rt, count);
    put(rt, &mut expected, lines.as_str());
    let same = text.as_str() == expected.as_str();
    drop(text);
    drop(query);
    same
}

// a list that is made
#[test]
fn longest_list(rt: HostRuntime) {
    assert!(rt; are_printed(&rt, 100_000));
}

// .. and one that is parsed of a text
#[test]
fn long_list(rt: HostRuntime) {
    let text = repeated(&rt, "1,", 9_999, "1");
    let expected = lines_of_ones(&rt, 10_000);
    assert!(rt; is_printed(&rt, text.as_str(), HEAD, expected.as_str()));
}

// a query with so many prefixes, and a path with a name under each
fn names_of_prefixes(rt: &(impl Abort + AllocGlobal), count: usize) -> String {
    let mut out = String::new(rt.alloc());
    for i in 0..count {
        let declared = format!(in rt.alloc(); "declare namespace p{i} = 'urn:{i}';");
        put(rt, &mut out, declared.expect(rt, "memory").as_str());
    }
    for i in 0..count {
        let name = format!(in rt.alloc(); "p{i}:a,");
        put(rt, &mut out, name.expect(rt, "memory").as_str());
    }
    put(rt, &mut out, "1");
    out
}

// many prefixes, each of which is looked up: what is printed is printed the same again
#[test]
fn many_prefixes(rt: HostRuntime) {
    let text = names_of_prefixes(&rt, 3_000);
    let once = printed(&rt, text.as_str());
    let twice = printed(&rt, once.as_str());
    assert!(rt; once.as_str().ends_with(" , 1") && twice.as_str() == once.as_str());
    drop(once);
    drop(twice);
}
