// Queries and documents that are large or nest deeply.
use crate::made::{QUERY, ends_so};
use std::alloc::AllocGlobal;
use std::process::Abort;

// This text, so many times, between two others.
fn around(
    rt: &(impl Abort + AllocGlobal),
    first: &str,
    part: &str,
    count: usize,
    last: &str,
) -> String {
    let mut text = String::new(rt.alloc());
    text.push_str(first).expect(rt, "memory");
    for _ in 0..count {
        text.push_str(part).expect(rt, "memory");
    }
    text.push_str(last).expect(rt, "memory");
    text
}

#[test]
fn parentheses(rt: HostRuntime) {
    let front = around(&rt, "", "(", 100_000, "1");
    let query = around(&rt, front.as_str(), ")", 100_000, "");
    assert!(rt; ends_so(&rt, QUERY, query.as_bytes(), b"<a/>", 0, "1"));
    drop(front);
    drop(query);
}

#[test]
fn comments_within_each_other(rt: HostRuntime) {
    let front = around(&rt, "", "(:", 1_000, "");
    let query = around(&rt, front.as_str(), ":)", 1_000, "1");
    assert!(rt; ends_so(&rt, QUERY, query.as_bytes(), b"<a/>", 0, "1"));
    drop(front);
    drop(query);
}

// So many ones that are added, and how the run ends.
const ONES: [(usize, u8, &str); 2] = [(400, 0, "400"), (401, 5, "static XTLM0004")];

#[test]
fn sums_within_each_other(rt: HostRuntime) {
    for (count, number, said) in ONES {
        let query = around(&rt, "1", "+1", count - 1, "");
        assert!(rt;
            ends_so(&rt, QUERY, query.as_bytes(), b"<a/>", number, said),
            "{count}"
        );
        drop(query);
    }
}

const DEEPEST: &[&str] = &["query", "q.xq", "d.xml", "--depth", "602"];

const CALL: &str = "declare function local:f($n) { if ($n = 1) then 0 else ";

// What comes before and after each of 602 open calls, in between so many times, and what they give.
const FORMS: [(usize, Parts, &str); 5] = [
    (30, ("", "1 + (", "local:f($n - 1)", ")", ""), "18030"),
    (30, ("", "(", "local:f($n - 1)", " + 1)", ""), "18030"),
    (
        30,
        ("", "if ($n = 0) then 9 else ", "local:f($n - 1)", "", ""),
        "0",
    ),
    (
        25,
        ("", "let $m := $n - 1 return ", "local:f($m)", "", ""),
        "0",
    ),
    (
        22,
        ("count(", "<a>", "{ local:f($n - 1) }", "</a>", ")"),
        "1",
    ),
];

type Parts = (
    &'static str,
    &'static str,
    &'static str,
    &'static str,
    &'static str,
);

fn nested(rt: &(impl Abort + AllocGlobal), count: usize, parts: Parts) -> String {
    let (first, before, call, behind, last) = parts;
    let mut query = around(rt, CALL, first, 1, "");
    for _ in 0..count {
        query.push_str(before).expect(rt, "memory");
    }
    query.push_str(call).expect(rt, "memory");
    for _ in 0..count {
        query.push_str(behind).expect(rt, "memory");
    }
    query.push_str(last).expect(rt, "memory");
    query.push_str(" }; local:f(602)").expect(rt, "memory");
    query
}

#[test]
fn forms_around_calls(rt: HostRuntime) {
    for (count, parts, said) in FORMS {
        let query = nested(&rt, count, parts);
        assert!(rt;
            ends_so(&rt, DEEPEST, query.as_bytes(), b"<a/>", 0, said),
            "{said}"
        );
        drop(query);
    }
}

#[test]
fn bytes_of_a_query(rt: HostRuntime) {
    let query = vec![in rt.alloc(); b' '; 67_108_865].expect(&rt, "memory");
    assert!(rt; ends_so(&rt, QUERY, &query, b"<a/>", 3, "long q.xq 67108865"));
    drop(query);
}

// A text of as many characters as a file may have.
#[test]
fn a_long_text(rt: HostRuntime) {
    let document = around(&rt, "<a>", "0123456789abcdef", 4_194_303, "012345678</a>");
    assert!(rt; document.len() == 67_108_864);
    let query = b"string-length(/a), contains(/a, 'f0123'), contains(/a, 'g'), /a = concat(/a, '')";
    let said = "67108857 true false true";
    assert!(rt; ends_so(&rt, QUERY, query, document.as_bytes(), 0, said));
    drop(document);
}

// The first element is asked for as often as there are elements.
#[test]
fn the_first_of_many(rt: HostRuntime) {
    let document = around(&rt, "<l>", "<a/>", 300_000, "</l>");
    let query = b"count(for $i in 1 to 300000 return exists(descendant::a))";
    assert!(rt; ends_so(&rt, QUERY, query, document.as_bytes(), 0, "300000"));
    drop(document);
}
