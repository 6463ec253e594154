// Large inputs.
use crate::told::{put, told};
use std::alloc::AllocGlobal;
use std::process::Abort;

fn many(
    rt: &(impl Abort + AllocGlobal),
    first: &str,
    part: &str,
    count: u32,
    last: &str,
) -> String {
    let mut text = String::new(rt.alloc());
    put(rt, &mut text, first);
    for _ in 0..count {
        put(rt, &mut text, part);
    }
    put(rt, &mut text, last);
    text
}

// A comma list of a million parts.
#[test]
fn a_million_parts(rt: HostRuntime) {
    let text = many(&rt, "count((1", ", 1", 999_999, "))");
    let found = told(&rt, text.as_str(), "<a/>", 0);
    assert_eq!(rt; found.as_str(), "1000000");
    drop(found);
    drop(text);
}

// 300,000 elements, visited, sorted and made.
#[test]
fn many_elements(rt: HostRuntime) {
    let document = many(&rt, "<l>", "<a/>", 300_000, "</l>");
    let cases = [
        ("count(for $a in //a return <b>{ name($a) }</b>)", "300000"),
        (
            "count(for $a at $p in //a order by -$p return $a)",
            "300000",
        ),
        (
            "(for $i in 1 to 300000 order by -$i return $i)[1]",
            "300000",
        ),
        ("sum(for $i in 1 to 300000 return 1)", "300000"),
        ("count(<r>{ //a }</r>/a[position() mod 2 = 0])", "150000"),
    ];
    for (text, wanted) in cases {
        let found = told(&rt, text, document.as_str(), 0);
        assert_eq!(rt; found.as_str(), wanted);
        drop(found);
    }
    drop(document);
}

// Whether there is a node, and which is the first, of 300,000 nodes: a walk of them all each time
// would visit 90,000,000,000 in the first case and 9,000,000,000 in each other.
#[test]
fn first_nodes(rt: HostRuntime) {
    let document = many(&rt, "<l>", "<a k='x'/>", 300_000, "</l>");
    let cases = [
        (
            "count(for $i in 1 to 300000 return exists(descendant::a))",
            "300000",
        ),
        (
            "count(for $i in 1 to 30000 return exists(//a[@k]))",
            "30000",
        ),
        (
            "count(for $i in 1 to 30000 return (//a[@k = 'x'])[1])",
            "30000",
        ),
        (
            "count((for $i in 1 to 30000 return empty(/descendant::a[@k][3]))[not(.)])",
            "30000",
        ),
    ];
    for (text, wanted) in cases {
        let found = told(&rt, text, document.as_str(), 0);
        assert_eq!(rt; found.as_str(), wanted);
        drop(found);
    }
    drop(document);
}

// Nesting 400.
#[test]
fn deep_nesting(rt: HostRuntime) {
    let text = many(&rt, "1", " + (1", 198, "");
    let text = closed(&rt, text, ")", 198);
    let found = told(&rt, text.as_str(), "<a/>", 0);
    assert_eq!(rt; found.as_str(), "199");
    drop(found);
    drop(text);
}

fn closed(rt: &(impl Abort + AllocGlobal), text: String, part: &str, count: u32) -> String {
    let mut text = text;
    for _ in 0..count {
        put(rt, &mut text, part);
    }
    text
}
