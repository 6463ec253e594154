// Which patterns texts spell, and why texts spell none (XSLT 2.0, 5.5.2).
use crate::shown::shown;

#[test]
fn values(rt: HostRuntime) {
    let cases = [
        ("a", "/{}a"),
        ("child::a", "/{}a"),
        ("attribute::a", "/@{}a"),
        ("@a", "/@{}a"),
        ("*", "/*"),
        ("@*", "/@*"),
        ("p:a", "/{u}a"),
        ("p:*", "/{u}*"),
        ("*:a", "/*:a"),
        ("@p:a", "/@{u}a"),
        ("node()", "/node()"),
        ("@node()", "/@node()"),
        ("text()", "/text()"),
        ("comment()", "/comment()"),
        ("processing-instruction()", "/pi()"),
        ("processing-instruction(x)", "/pi(x)"),
        ("/", "^"),
        ("/a", "^/{}a"),
        ("//a", "^//{}a"),
        ("//a/b", "^//{}a/{}b"),
        ("a/b", "/{}a/{}b"),
        ("a//b", "/{}a//{}b"),
        ("a//@b", "/{}a//@{}b"),
        ("/a//b/@c", "^/{}a//{}b/@{}c"),
        ("a | b", "/{}a | /{}b"),
        ("a|/|//@b", "/{}a | ^ | ^//@{}b"),
        ("/ | a", "^ | /{}a"),
        ("/ *", "^/*"),
        ("a[1]", "/{}a[integer]"),
        ("a[1][b]", "/{}a[integer][step]"),
        ("a[b/c[1]]/d[@k = 1 and b]", "/{}a[path]/{}d[and]"),
        ("a[position() = last()]", "/{}a[comparison]"),
        ("a[(b)]", "/{}a[step]"),
        ("a[not(b)] | a[2]", "/{}a[call] | /{}a[integer]"),
        (" a (: b :) / c ", "/{}a/{}c"),
        ("key", "/{}key"),
        ("id/text", "/{}id/{}text"),
        ("union | or", "/{}union | /{}or"),
    ];
    for (words, wanted) in cases {
        let found = shown(&rt, "", words);
        assert_eq!(rt; found.as_str(), wanted, "{words}");
        drop(found);
    }
}

#[test]
fn elements_without_prefix(rt: HostRuntime) {
    let found = shown(&rt, "d", "a/@b/p:c | *");
    assert_eq!(rt; found.as_str(), "/{d}a/@{}b/{u}c | /*");
    drop(found);
}

#[test]
fn what_is_no_expression(rt: HostRuntime) {
    let cases = [
        "",
        " (: :) ",
        "a[",
        "a |",
        "| a",
        "a b",
        "a[]",
        "/ /a",
        "a/",
        "#",
        "a[#]",
        "a[99999999999999999999]",
        "key ( 'a'",
        "id(99999999999999999999)",
    ];
    for words in cases {
        let found = shown(&rt, "", words);
        assert_eq!(rt; found.as_str(), "syntax", "{words}");
        drop(found);
    }
}

#[test]
fn what_has_another_shape(rt: HostRuntime) {
    let cases = [
        "a union b",
        "a | b union c",
        "(a)",
        "a/(b)",
        "a | (b)",
        "a/..",
        "..",
        ".",
        "a, b",
        "$x",
        "1",
        "()",
        "self::a",
        "a/descendant::b",
        "self::q:a",
        "namespace::a",
        "-a",
        "a = b",
        "a intersect b",
        "for $x in a return b",
        "a | key('b', 'c')",
        "(a)[1]",
    ];
    for words in cases {
        let found = shown(&rt, "", words);
        assert_eq!(rt; found.as_str(), "XTSE0340", "{words}");
        drop(found);
    }
}

#[test]
fn what_is_left_out(rt: HostRuntime) {
    let cases = [
        "key('a', 'b')",
        "key ( 'a', q:b )",
        "key('a', 'b')/c",
        "id('x')",
        "document-node()",
        "child::document-node()/a",
        "element()",
        "element(a)",
        "a/attribute()",
        "attribute(a)",
        "child::attribute(a)",
        "processing-instruction('x')",
        "a[$x]",
        "a[//b]",
        "a[b | c]",
        "a[1 = 1]",
        "a['x']",
        "a[position()]",
        "a[@k = 1 or b]",
        "a[b, c]",
        "a[b]/c | d[f(1)]",
    ];
    for words in cases {
        let found = shown(&rt, "", words);
        assert_eq!(rt; found.as_str(), "XTUN0001", "{words}");
        drop(found);
    }
}

#[test]
fn which_rule_is_broken(rt: HostRuntime) {
    let cases = [
        ("q:a", "XPST0081"),
        ("a/q:*", "XPST0081"),
        ("@q:a", "XPST0081"),
        ("a | q:b", "XPST0081"),
        ("a[q:b]", "XPST0081"),
        ("a[namespace::b]", "XPST0010"),
        ("a[1 cast as xs:float]", "XPST0051"),
        ("a[xs:integer()]", "XPST0017"),
        ("a[namespace::b] | q:c", "XPST0010"),
        ("q:c | a[namespace::b]", "XPST0081"),
        ("document-node()/q:a", "XPST0081"),
        ("a[$x] | q:b", "XPST0081"),
    ];
    for (words, wanted) in cases {
        let found = shown(&rt, "", words);
        assert_eq!(rt; found.as_str(), wanted, "{words}");
        drop(found);
    }
}
