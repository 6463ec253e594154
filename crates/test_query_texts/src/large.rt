// Limits of nesting, and large inputs.
use crate::shown::{LIMIT, put, read, repeated};
use query_texts::{QueryReading, read_query};
use std::alloc::AllocGlobal;
use std::process::Abort;

// the first text, calls so many levels deep with their argument, and the last text
fn with_calls(rt: &(impl Abort + AllocGlobal), front: &str, levels: usize, back: &str) -> String {
    let mut out = String::new(rt.alloc());
    put(rt, &mut out, front);
    for _ in 1..levels {
        put(rt, &mut out, "f(");
    }
    put(rt, &mut out, "1");
    for _ in 1..levels {
        put(rt, &mut out, ")");
    }
    put(rt, &mut out, back);
    out
}

#[test]
fn limits(rt: HostRuntime) {
    let cases = [
        ("", 400usize, "", "call"),
        ("", 401, "", "TooDeep"),
        ("", 100_000, "", "TooDeep"),
        ("declare variable $a := ", 400, "; 1", "variable(a) number"),
        ("declare variable $a := ", 401, "; 1", "TooDeep"),
        (
            "declare function g() { ",
            400,
            " }; 1",
            "function(g) number",
        ),
        ("declare function g() { ", 401, " }; 1", "TooDeep"),
        // what spells nothing nests at no depth
        ("", 401, ")", "Nothing"),
        ("declare variable $a := ", 401, "; )", "Nothing"),
        ("declare variable $a := ", 401, ";", "Nothing"),
        (
            "declare function g() { ",
            401,
            " }; declare ordering ordered; 1",
            "Nothing",
        ),
        ("declare ordering ordered; ", 401, "", "TooDeep"),
    ];
    for (front, levels, back, expected) in cases {
        let text = with_calls(&rt, front, levels, back);
        let found = read(&rt, text.as_str());
        assert_eq!(rt; found.as_str(), expected);
        drop(found);
        drop(text);
    }
}

#[test]
fn many_declarations(rt: HostRuntime) {
    let mut text = repeated(&rt, "declare variable $a := <b>{1}</b>;", 100_000);
    put(&rt, &mut text, "1");
    match read_query(rt.alloc(), text.as_str(), LIMIT).expect(&rt, "memory") {
        QueryReading::Value(query) => {
            assert_eq!(rt; query.declared.len(), 100_000);
            drop(query);
        }
        _ => assert!(rt; false),
    }
    drop(text);
}

#[test]
fn many_parts(rt: HostRuntime) {
    let mut text = repeated(&rt, "1,", 1_000_000);
    put(&rt, &mut text, "1");
    let found = read(&rt, text.as_str());
    assert_eq!(rt; found.as_str(), "list");
    drop(found);
    drop(text);
}
