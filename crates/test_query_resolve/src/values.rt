// What queries mean.
use crate::shown::told;

#[test]
fn prologs(rt: HostRuntime) {
    let cases = [
        ("1", "query"),
        ("xquery version '1.0'; 1", "query"),
        ("xquery version '1.0' encoding 'utf-8'; 1", "query"),
        (
            "declare namespace p = 'u'; declare namespace q = ''; p:a",
            "query p=u q=",
        ),
        ("declare namespace local = 'u'; local:a", "query local=u"),
        (
            "declare default element namespace 'u'; a",
            "query default=u",
        ),
        (
            "declare default element namespace 'u'; declare default function namespace 'v'; a",
            "query default=u",
        ),
        (
            "declare ordering ordered; declare ordering ordered; 1",
            "query",
        ),
        (
            "declare default order empty least; declare default order empty least; 1",
            "query",
        ),
        (
            "declare copy-namespaces no-preserve, no-inherit; \
             declare copy-namespaces no-preserve, no-inherit; declare boundary-space strip; 1",
            "query",
        ),
        (
            "declare variable $x := 1; declare variable $y as xs:integer external; ($x, $y)",
            "query $x $y typed external",
        ),
        (
            "declare default element namespace 'u'; declare namespace p = 'v'; \
             declare variable $p:x := 1; declare variable $x := $p:x; $x",
            "query p=v default=u ${v}x $x",
        ),
        (
            "declare function local:f($a) { $a }; declare variable $v := local:f(1); \
             declare function local:f($a as node(), $v) as node()* { local:f($v) }; local:f(1, 2)",
            "query $v {http://www.w3.org/2005/xquery-local-functions}f($a) \
             {http://www.w3.org/2005/xquery-local-functions}f($a$v) typed",
        ),
        (
            "declare default function namespace 'u'; declare function f() { f() }; f()",
            "query {u}f()",
        ),
        (
            "declare function local:f() { local:g() }; declare function local:g() { 1 }; local:f()",
            "query {http://www.w3.org/2005/xquery-local-functions}f() \
             {http://www.w3.org/2005/xquery-local-functions}g()",
        ),
        (
            "for $x at $y in 1, $x at $z in 2 return ($x, $y, $z)",
            "query",
        ),
    ];
    for (text, wanted) in cases {
        let found = told(&rt, text);
        assert_eq!(rt; found.as_str(), wanted, "{text}");
        drop(found);
    }
}

#[test]
fn options(rt: HostRuntime) {
    let cases = [
        ("declare option space 'strip'; 1", "query"),
        (
            "declare namespace o = 'urn:xslt2xq'; declare option o:other 'strip'; 1",
            "query o=urn:xslt2xq",
        ),
        (
            "declare namespace o = 'u'; declare option o:space 'strip'; 1",
            "query o=u",
        ),
        (
            "declare namespace o = 'urn:xslt2xq'; declare option o:space '  '; 1",
            "query o=urn:xslt2xq",
        ),
        (
            "declare namespace o = 'urn:xslt2xq'; declare option o:space ' strip * '; \
             declare option o:declaration 'omit'; 1",
            "query o=urn:xslt2xq strip * omit",
        ),
        (
            "declare default element namespace 'e'; declare namespace o = 'urn:xslt2xq'; \
             declare option o:space 'preserve a strip o:b preserve o:* strip *:c'; 1",
            "query o=urn:xslt2xq default=e preserve a strip {urn:xslt2xq}b preserve \
             urn:xslt2xq:* strip *:c",
        ),
    ];
    for (text, wanted) in cases {
        let found = told(&rt, text);
        assert_eq!(rt; found.as_str(), wanted, "{text}");
        drop(found);
    }
}
