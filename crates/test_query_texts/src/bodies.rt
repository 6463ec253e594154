// Queries without a prolog (XQuery 1.0, 3.2, 3.7.1 and A.1).
use crate::shown::read;

#[test]
fn bodies(rt: HostRuntime) {
    let cases = [
        ("1", "number"),
        ("(: a :) 1 (: b :)", "number"),
        ("1, 2", "list"),
        ("(1)", "parens"),
        // words of a prolog are names elsewhere
        ("declare", "step"),
        ("xquery", "step"),
        ("declare + 1", "operators"),
        ("xquery/version", "steps"),
        ("declare(1)", "call"),
        ("(declare)", "parens"),
        // `<` as an operator and as the front of an element
        ("1 < 2", "operators"),
        ("1 <a", "operators"),
        ("$a<b", "operators"),
        ("<a/>", "element"),
        ("1 + <a/>", "operators"),
        ("<a/> < <b/>", "operators"),
        ("<a>{ 1 <a }</a>", "element"),
        ("<a b=\"{ 1 < 2 }\">{ <c/> } </a>", "element"),
        ("if (1 < 2) then <a/> else <b/>", "other"),
        // a `/` that may stand alone
        ("/", "root"),
        ("/ < 1", "operators"),
        ("/<a/>", "steps from the root"),
        ("/a", "steps from the root"),
        ("//a", "deep steps from the root"),
    ];
    for (text, expected) in cases {
        let found = read(&rt, text);
        assert_eq!(rt; found.as_str(), expected);
        drop(found);
    }
}

#[test]
fn no_bodies(rt: HostRuntime) {
    let cases = [
        "",
        "1;",
        "1 2",
        "declare 1",
        "declare variable",
        "<a>",
        "<a/",
        "1 + ",
        "< a/>",
        "1a",
        "}",
        "1 }",
    ];
    for text in cases {
        let found = read(&rt, text);
        assert_eq!(rt; found.as_str(), "Nothing");
        drop(found);
    }
}
