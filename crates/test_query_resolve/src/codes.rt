// Which static rule of queries is broken.
use crate::shown::told;
use std::alloc::AllocGlobal;
use std::process::Abort;

fn are(rt: &(impl Abort + AllocGlobal), wanted: &str, cases: &[&str]) {
    for text in cases {
        let found = told(rt, text);
        assert_eq!(rt; found.as_str(), wanted, "{text}");
        drop(found);
    }
}

#[test]
fn variables(rt: HostRuntime) {
    let unknown = [
        "$x",
        "declare variable $x := $x; 1",
        "declare variable $x := $y; declare variable $y := 1; 2",
        "declare function local:f() { $x }; declare variable $x := 1; 2",
        "declare function local:f($a) { $a }; $a",
        "for $x in 1 return $y",
        "declare namespace p = 'u'; declare variable $p:x := 1; $x",
    ];
    are(&rt, "XPST0008", unknown.as_slice());
    let twice = [
        "declare variable $x := 1; declare variable $x := 2; 1",
        "declare variable $x external; declare variable $x := 1; 1",
        "declare namespace a = 'u'; declare namespace b = 'u'; \
         declare variable $a:x := 1; declare variable $b:x := 2; 1",
    ];
    are(&rt, "XQST0049", twice.as_slice());
    let places = [
        "for $x at $x in 1 return 2",
        "declare namespace a = 'u'; declare namespace b = 'u'; for $a:x at $b:x in 1 return 2",
        "declare variable $v := for $y in 1, $x at $x in 2 return 3; 4",
        "declare function local:f() { for $x as xs:string at $x in 1 return 2 }; 3",
        "(1, for $x at $y in 1 for $z at $z in 2 return 3)",
    ];
    are(&rt, "XQST0089", places.as_slice());
}

#[test]
fn functions(rt: HostRuntime) {
    let unknown = [
        "f()",
        "local:f()",
        "count(1, 2)",
        "xs:string()",
        "xs:integer(1, 2)",
        "declare function local:f() { 1 }; local:f(1)",
        "declare function local:f() { local:g() }; 1",
        "declare variable $x := local:f(); 1",
    ];
    are(&rt, "XPST0017", unknown.as_slice());
    let twice = ["declare function local:f() { 1 }; declare function local:f() { 2 }; 1"];
    are(&rt, "XQST0034", twice.as_slice());
    let params = [
        "declare function local:f($a, $a) { 1 }; 1",
        "declare function local:f($a, $b as xs:string, $a as node()) { 1 }; 1",
    ];
    are(&rt, "XQST0039", params.as_slice());
    let reserved = [
        "declare function f() { 1 }; 1",
        "declare function fn:f() { 1 }; 1",
        "declare function xs:f() { 1 }; 1",
        "declare function xsi:f() { 1 }; 1",
        "declare function xml:f() { 1 }; 1",
        "declare namespace p = 'http://www.w3.org/2005/xpath-functions'; \
         declare function p:f() { 1 }; 1",
    ];
    are(&rt, "XQST0045", reserved.as_slice());
    let bare = ["declare default function namespace ''; declare function f() { 1 }; 1"];
    are(&rt, "XQST0060", bare.as_slice());
}

#[test]
fn expressions_and_types(rt: HostRuntime) {
    let axes = [
        "namespace::a",
        "declare variable $x := namespace::a; 1",
        "declare function local:f() { namespace::a }; 1",
    ];
    are(&rt, "XPST0010", axes.as_slice());
    let types = [
        "1 instance of xs:float",
        "1 cast as xs:QName",
        "declare variable $x as xs:float := 1; 2",
        "declare variable $x as integer external; 2",
        "declare function local:f($a as xs:date) { 1 }; 2",
        "declare function local:f() as xs:date { 1 }; 2",
        "declare variable $x := 1 treat as xs:double; 2",
    ];
    are(&rt, "XPST0051", types.as_slice());
    let casts = [
        "1 cast as xs:anyAtomicType",
        "declare variable $x := 1 castable as xs:anyAtomicType; 2",
        "declare function local:f() { 1 cast as xs:anyAtomicType ? }; 2",
    ];
    are(&rt, "XPST0080", casts.as_slice());
    let prefixes = [
        "q:a",
        "q:f()",
        "$q:x",
        "declare variable $q:x := 1; 2",
        "declare variable $x as q:t := 1; 2",
        "declare variable $x := q:a; 2",
        "declare function q:f() { 1 }; 2",
        "declare function local:f($q:a) { 1 }; 2",
        "declare function local:f($a as q:t) { 1 }; 2",
        "declare function local:f() as q:t { 1 }; 2",
        "declare function local:f() { q:a }; 2",
        "declare option q:o ''; 2",
        "declare namespace o = 'urn:xslt2xq'; declare option o:space 'strip q:a'; 1",
        "declare namespace o = 'urn:xslt2xq'; declare option o:space 'strip a preserve q:*'; 1",
        "declare namespace p = ''; p:a",
        "declare namespace xs = ''; 1 instance of xs:integer",
    ];
    are(&rt, "XPST0081", prefixes.as_slice());
}

#[test]
fn setters(rt: HostRuntime) {
    are(
        &rt,
        "XQST0031",
        ["xquery version '1.1'; 1", "xquery version ''; 1"].as_slice(),
    );
    let prefixes = [
        "declare namespace p = 'u'; declare namespace p = 'v'; 1",
        "declare namespace p = 'u'; declare namespace p = 'u'; 1",
        "declare namespace p = ''; declare namespace q = 'u'; declare namespace p = 'u'; 1",
    ];
    are(&rt, "XQST0033", prefixes.as_slice());
    let defaults = [
        "declare default element namespace 'u'; declare default element namespace 'v'; 1",
        "declare default function namespace 'u'; declare default function namespace 'u'; 1",
    ];
    are(&rt, "XQST0066", defaults.as_slice());
    let spaces = ["declare boundary-space strip; declare boundary-space preserve; 1"];
    are(&rt, "XQST0068", spaces.as_slice());
    let kept = [
        "declare namespace xml = 'http://www.w3.org/XML/1998/namespace'; 1",
        "declare namespace xmlns = 'u'; 1",
        "declare namespace p = 'http://www.w3.org/XML/1998/namespace'; 1",
        "declare namespace p = 'http://www.w3.org/2000/xmlns/'; 1",
        "declare default element namespace 'http://www.w3.org/XML/1998/namespace'; 1",
        "declare default function namespace 'http://www.w3.org/2000/xmlns/'; 1",
    ];
    are(&rt, "XQST0070", kept.as_slice());
}

#[test]
fn options(rt: HostRuntime) {
    let cases = [
        "declare namespace o = 'urn:xslt2xq'; declare option o:space 'strip'; 1",
        "declare namespace o = 'urn:xslt2xq'; declare option o:space 'strip * preserve'; 1",
        "declare namespace o = 'urn:xslt2xq'; declare option o:space 'keep *'; 1",
        "declare namespace o = 'urn:xslt2xq'; declare option o:space 'strip a:b:c'; 1",
        "declare namespace o = 'urn:xslt2xq'; declare option o:space 'strip :a'; 1",
        "declare namespace o = 'urn:xslt2xq'; declare option o:space 'strip a:'; 1",
        "declare namespace o = 'urn:xslt2xq'; declare option o:space 'strip *:*'; 1",
        "declare namespace o = 'urn:xslt2xq'; declare option o:space 'strip 1'; 1",
        "declare namespace o = 'urn:xslt2xq'; declare option o:space ''; \
         declare option o:space ''; 1",
        "declare namespace o = 'urn:xslt2xq'; declare option o:declaration 'no'; 1",
        "declare namespace o = 'urn:xslt2xq'; declare option o:declaration ' omit'; 1",
        "declare namespace o = 'urn:xslt2xq'; declare option o:declaration 'omit'; \
         declare option o:declaration 'omit'; 1",
        "declare namespace o = 'urn:xslt2xq'; declare namespace p = 'urn:xslt2xq'; \
         declare option o:space 'strip *'; declare option p:space 'strip *'; 1",
    ];
    are(&rt, "XTOP0001", cases.as_slice());
}

#[test]
fn the_first_one_counts(rt: HostRuntime) {
    let cases = [
        (
            "xquery version '2.0'; declare namespace xml = 'u'; 1",
            "XQST0031",
        ),
        (
            "declare namespace p = 'u'; declare namespace xml = 'v'; declare namespace p = 'w'; 1",
            "XQST0070",
        ),
        (
            "declare namespace xml = 'u'; declare namespace xml = 'u'; 1",
            "XQST0070",
        ),
        ("declare namespace xml = 'u'; q:a", "XQST0070"),
        ("declare variable $x := $y; q:a", "XPST0081"),
        ("declare variable $q:x as xs:float := 1; 1", "XPST0081"),
        ("declare variable $x as xs:float := q:a; 1", "XPST0051"),
        (
            "declare variable $x := 1; declare variable $x := $y; 1",
            "XQST0049",
        ),
        (
            "declare variable $x := $y; declare variable $x := 1; 1",
            "XPST0008",
        ),
        ("declare function f($a, $a) { $b }; 1", "XQST0045"),
        ("declare function local:f($a, $a) { $b }; 1", "XQST0039"),
        (
            "declare function local:f($a as q:t) as xs:float { 1 }; 1",
            "XPST0081",
        ),
        ("for $x at $x in q:a return 1", "XPST0081"),
        ("for $x at $x in 1 return q:a", "XQST0089"),
        (
            "declare namespace o = 'urn:xslt2xq'; declare option o:space 'strip q:a strip'; q:b",
            "XPST0081",
        ),
        (
            "declare namespace o = 'urn:xslt2xq'; declare option o:space 'a q:a'; q:b",
            "XTOP0001",
        ),
    ];
    for (text, wanted) in cases {
        let found = told(&rt, text);
        assert_eq!(rt; found.as_str(), wanted, "{text}");
        drop(found);
    }
}

#[test]
fn attributes(rt: HostRuntime) {
    let twice = [
        "<a k='' k=''/>",
        "declare namespace p = 'u'; declare namespace q = 'u'; <a p:k='' q:k=''/>",
        "declare variable $x := <a k='1' k='2'/>; 1",
        "declare function local:f() { <a><b k='' k=''/></a> }; 1",
    ];
    are(&rt, "XQST0040", twice.as_slice());
    let unknown = ["<a q:k=''/>", "<q:a></q:a>", "<a>{ <q:b/> }</a>"];
    are(&rt, "XPST0081", unknown.as_slice());
    let apart = [
        "declare namespace p = 'u'; declare namespace q = 'u'; <a k='' q:k=''/>",
        "declare namespace p = 'u'; declare namespace q = 'u'; <p:a q:a=''/>",
    ];
    are(&rt, "query p=u q=u", apart.as_slice());
}
