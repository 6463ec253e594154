// Prologs (XQuery 1.0, 4).
use crate::shown::read;

#[test]
fn declarations(rt: HostRuntime) {
    let cases = [
        ("xquery version '1.0'; 1", "version(1.0) number"),
        (
            "xquery version '1.0' encoding 'Utf-8'; 1",
            "version(1.0) number",
        ),
        ("declare namespace p = 'u'; 1", "namespace(p ) to(u) number"),
        (
            "declare default element namespace 'u'; 1",
            "elements(u) number",
        ),
        (
            "declare default function namespace 'u'; 1",
            "functions(u) number",
        ),
        ("declare boundary-space preserve; 1", "preserve number"),
        ("declare boundary-space strip; 1", "strip number"),
        ("declare ordering ordered; 1", "setter number"),
        ("declare default order empty least; 1", "setter number"),
        (
            "declare copy-namespaces no-preserve, no-inherit; 1",
            "setter number",
        ),
        ("declare option p:o 'x'; 1", "option(p:o) to(x) number"),
        ("declare variable $a := 1; $a", "variable(a) reference"),
        (
            "declare variable $a as xs:integer* := 1 < 2; <b/>",
            "variable(a) element",
        ),
        ("declare variable $a := <b>;</b>; 1", "variable(a) number"),
        (
            "declare variable $p:a as item()+ external; 1",
            "external(p:a) number",
        ),
        ("declare function p:f() { 1 }; p:f()", "function(p:f) call"),
        (
            "declare function f($a, $b as item()) as node()* \
             { element c { <d e='{ {1} }'>{ 2 }</d> } }; 1",
            "Nothing",
        ),
        (
            "declare function f($a, $b as item()) as node()* \
             { element c { <d e='{ 1 }'>{ 2 }</d> } }; 1",
            "function(f ..) number",
        ),
        (
            "xquery version '1.0'; declare namespace p='u'; declare ordering ordered; \
             declare variable $a := 1; declare option o 'x'; declare function f() { $a }; declare",
            "version(1.0) namespace(p ) to(u) setter variable(a) option(o) to(x) function(f) step",
        ),
    ];
    for (text, expected) in cases {
        let found = read(&rt, text);
        assert_eq!(rt; found.as_str(), expected);
        drop(found);
    }
}

#[test]
fn no_declarations(rt: HostRuntime) {
    let cases = [
        "declare variable $a := 1;",
        "declare variable $a := 1, 2; 1",
        "declare variable a := 1; 1",
        "declare variable $a; 1",
        "declare variable $a := ; 1",
        "declare function f() { }; 1",
        "declare function f() { 1 } 1",
        "declare function f() { 1 }} ; 1",
        "declare function f(a) { 1 }; 1",
        "declare function f() external; 1",
        "declare ordering unordered; 1",
        "declare default order empty greatest; 1",
        "declare copy-namespaces preserve, inherit; 1",
        "xquery version '1.0' encoding 'latin-1'; 1",
        "xquery version 1.0; 1",
        // in a wrong order
        "declare variable $a := 1; declare namespace p = 'u'; 1",
        "declare option o 'x'; declare ordering ordered; 1",
        "declare namespace p = 'u'; xquery version '1.0'; 1",
        "xquery version '1.0'; xquery version '1.0'; 1",
        "declare function f() { 1 }; xquery version '1.0'; 1",
    ];
    for text in cases {
        let found = read(&rt, text);
        assert_eq!(rt; found.as_str(), "Nothing");
        drop(found);
    }
}
