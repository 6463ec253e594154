// Texts of queries.
use std::alloc::AllocGlobal;
use std::process::Abort;
use xquery_syntax::parse_query;
use xt_syntax::ParseFault;

fn put(rt: &(impl Abort + AllocGlobal), out: &mut String, text: &str) {
    out.push_str(text).expect(rt, "memory");
}

// `query`, or why there is none.
fn told(rt: &(impl Abort + AllocGlobal), text: &str) -> String {
    let found = parse_query(rt.alloc(), text);
    let mut out = String::new(rt.alloc());
    match found {
        Err(ParseFault::Syntax) => put(rt, &mut out, "syntax"),
        Err(ParseFault::TooDeep) => put(rt, &mut out, "deep"),
        Err(ParseFault::Static(code)) => put(rt, &mut out, code.text()),
        Err(ParseFault::Memory(_)) => put(rt, &mut out, "memory"),
        Ok(query) => {
            put(rt, &mut out, "query");
            drop(query);
        }
    }
    out
}

#[test]
fn texts(rt: HostRuntime) {
    let cases = [
        ("1", "query"),
        ("", "syntax"),
        ("1;", "syntax"),
        ("declare variable $x := 1", "syntax"),
        ("declare variable $x := 1; $x", "query"),
        (
            "declare variable $x := 1; declare namespace p = 'u'; 1",
            "syntax",
        ),
        ("$x", "XPST0008"),
        ("f()", "XPST0017"),
        ("namespace::a", "XPST0010"),
        ("1 cast as xs:anyAtomicType", "XPST0080"),
        ("1 instance of xs:float", "XPST0051"),
        ("<q:a/>", "XPST0081"),
        ("xquery version '1.1'; 1", "XQST0031"),
        ("xquery version '1.0'; 1", "query"),
        (
            "declare namespace p = 'u'; declare namespace p = 'u'; 1",
            "XQST0033",
        ),
        (
            "declare function local:f() { 1 }; declare function local:f() { 2 }; 1",
            "XQST0034",
        ),
        ("declare function local:f($a, $a) { 1 }; 1", "XQST0039"),
        ("<a k='1' k='2'/>", "XQST0040"),
        (
            "declare variable $x := <a>{ <b k='1' k='2'/> }</a>; 1",
            "XQST0040",
        ),
        ("declare function f() { 1 }; 1", "XQST0045"),
        (
            "declare variable $x := 1; declare variable $x := 2; 1",
            "XQST0049",
        ),
        (
            "declare default function namespace ''; declare function f() { 1 }; 1",
            "XQST0060",
        ),
        (
            "declare default element namespace 'u'; declare default element namespace 'v'; 1",
            "XQST0066",
        ),
        (
            "declare boundary-space strip; declare boundary-space strip; 1",
            "XQST0068",
        ),
        ("declare namespace xmlns = 'u'; 1", "XQST0070"),
        ("<a>{ for $x at $x in 1 return 2 }</a>", "XQST0089"),
        (
            "declare namespace o = 'urn:xslt2xq'; declare option o:space 'strip'; 1",
            "XTOP0001",
        ),
        ("<a></b>", "syntax"),
        ("<a xmlns='u'/>", "syntax"),
        ("declare variable $x := <a><b></a></b>; 1", "syntax"),
        ("declare function local:f() { <a></b> }; 1", "syntax"),
        ("<a p:k='{ 1 }'> { <b>t</b> } </a>", "XPST0081"),
        (
            "declare namespace p = 'u'; <p:a p:k='{ 1 }'> { <b>t</b> } </p:a>",
            "query",
        ),
        (
            "(: a (: b :) :) for $x at $y in //a where $x order by $y return <b/>",
            "query",
        ),
    ];
    for (text, wanted) in cases {
        let found = told(&rt, text);
        assert_eq!(rt; found.as_str(), wanted, "{text}");
        drop(found);
    }
}

fn repeated(
    rt: &(impl Abort + AllocGlobal),
    front: &str,
    text: &str,
    times: usize,
    end: &str,
) -> String {
    let mut out = String::new(rt.alloc());
    for _ in 0..times {
        put(rt, &mut out, front);
    }
    put(rt, &mut out, text);
    for _ in 0..times {
        put(rt, &mut out, end);
    }
    out
}

#[test]
fn how_deep(rt: HostRuntime) {
    let cases = [
        ("(", 100_000, ")", "query"),
        ("", 399, "+1", "query"),
        ("", 400, "+1", "deep"),
        ("<a>", 401, "</a>", "deep"),
        ("<a>", 100_000, "</a>", "deep"),
        ("<a>", 100_000, "", "syntax"),
        ("(: ", 100_000, ":)", "syntax"),
    ];
    for (front, times, end, wanted) in cases {
        let text = repeated(&rt, front, "1", times, end);
        let found = told(&rt, text.as_str());
        drop(text);
        assert_eq!(rt; found.as_str(), wanted, "{front}{end}");
        drop(found);
    }
}

#[test]
fn comments_nest(rt: HostRuntime) {
    let mut text = repeated(&rt, "(:", "", 100_000, ":)");
    put(&rt, &mut text, "1");
    let found = told(&rt, text.as_str());
    drop(text);
    assert_eq!(rt; found.as_str(), "query");
    drop(found);
}
