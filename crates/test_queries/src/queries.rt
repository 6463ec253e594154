// Runs of queries: what is written after the XML declaration, or the line that is said.
use crate::made::{QUERY, ends_so, files_with, status_of};
use xt_io::MemSink;

// A query, the number of the status, and what is written or said.
type Row = (&'static str, u8, &'static str);

const VALUES: [Row; 28] = [
    (
        "for $x at $p in (3, 1, 2) order by $x return $p",
        0,
        "2 3 1",
    ),
    ("<a>{1}{2}</a>", 0, "<a>12</a>"),
    ("<a>{1, 2}</a>", 0, "<a>1 2</a>"),
    ("attribute x {1}", 7, "dynamic SENR0001"),
    ("9223372036854775807 + 1", 7, "dynamic FOAR0002"),
    ("9223372036854775808", 5, "static XPST0003"),
    ("", 5, "static XPST0003"),
    ("let $a := 5 return $a -1", 0, "4"),
    ("let $a := 5 return $a-1", 5, "static XPST0008"),
    (
        "let $a := <a/>, $b := <b/> return $a << $b",
        7,
        "dynamic XTOR0001",
    ),
    (
        "let $a := <a/>, $b := <b/> return name(($b | $a)[1])",
        0,
        "a",
    ),
    ("-7 idiv 2, -7 mod 2", 0, "-3 -1"),
    ("(-9223372036854775807 - 1) idiv -1", 7, "dynamic FOAR0002"),
    ("(-9223372036854775807 - 1) mod -1", 0, "0"),
    ("xs:integer(\" 42 \")", 0, "42"),
    ("xs:integer(\"9223372036854775808\")", 7, "dynamic FORG0001"),
    ("xs:untypedAtomic(\"01\") = 1", 0, "true"),
    ("xs:untypedAtomic(\"01\") eq 1", 7, "dynamic XPTY0004"),
    (
        "element r {attribute k {1}, attribute k {2}}",
        7,
        "dynamic XQDY0025",
    ),
    ("element r {\"t\", attribute k {1}}", 7, "dynamic XQTY0024"),
    ("1a", 5, "static XPST0003"),
    ("1 = 2 = 3", 5, "static XPST0003"),
    ("- - 1", 0, "1"),
    ("(1 to 9223372036854775807)[3]", 0, "3"),
    ("count(1 to 9223372036854775807)", 0, "9223372036854775807"),
    ("count(0 to 9223372036854775807)", 7, "dynamic FOAR0002"),
    ("exists(1 to 9223372036854775807)", 0, "true"),
    ("<a></b>", 5, "static XPST0003"),
];

#[test]
fn values(rt: HostRuntime) {
    for (query, number, said) in VALUES {
        assert!(rt;
            ends_so(&rt, QUERY, query.as_bytes(), b"<a/>", number, said),
            "{query}"
        );
    }
}

const PLACES: [Row; 6] = [
    ("count(//b)", 0, "2"),
    ("(//b)[3]", 0, ""),
    ("/a/b/7", 0, "7 7"),
    ("(1, error())[1]", 7, "dynamic FOER0000"),
    ("/a/b[1]/@k", 7, "dynamic SENR0001"),
    ("//b[2] << //b[1]", 0, "false"),
];

#[test]
fn places(rt: HostRuntime) {
    for (query, number, said) in PLACES {
        assert!(rt;
            ends_so(
                &rt,
                QUERY,
                query.as_bytes(),
                b"<a><b k=\"1\"/><b/></a>",
                number,
                said
            ),
            "{query}"
        );
    }
}

// What comes after the declaration of the namespace of the options.
const SPACES: [Row; 5] = [
    (
        "declare option o:space \"strip *\"; count(//text())",
        0,
        "1",
    ),
    ("count(//text())", 0, "3"),
    (
        "declare option o:space \"preserve a strip *\"; count(//text())",
        0,
        "3",
    ),
    (
        "declare option o:space \"strip e\"; count(doc(\"e.xml\")//text())",
        0,
        "0",
    ),
    ("declare option o:space \"strip\"; 1", 5, "static XTOP0001"),
];

#[test]
fn white_space(rt: HostRuntime) {
    let words: &[&str] = &["query", "q.xq", "d.xml", "--doc", "e.xml"];
    for (body, number, said) in SPACES {
        let query = format!(in rt.alloc(); "declare namespace o = \"urn:xslt2xq\"; {body}");
        let query = query.expect(&rt, "memory");
        assert!(rt;
            ends_so(
                &rt,
                words,
                query.as_bytes(),
                b"<a> <b>x</b> </a>",
                number,
                said
            ),
            "{body}"
        );
        drop(query);
    }
}

#[test]
fn without_the_declaration(rt: HostRuntime) {
    let query =
        b"declare namespace o = \"urn:xslt2xq\"; declare option o:declaration \"omit\"; <r/>";
    let mut files = files_with(&rt, query, b"<a/>");
    let mut out = MemSink::new(rt.alloc());
    let mut notes = MemSink::new(rt.alloc());
    assert_eq!(rt; status_of(&rt, QUERY, &mut files, &mut out, &mut notes), 0);
    assert_eq!(rt; out.bytes(), b"<r/>".as_slice());
    assert!(rt; notes.bytes().is_empty());
    drop(files);
    drop(out);
    drop(notes);
}

const EXTERNAL: &str = "declare variable $n as xs:integer external; $n + 1";

// A function that calls itself until its argument is 1, and one that never ends.
const GO: &str = "declare function local:go($i) { if ($i = 1) then 0 else local:go($i - 1) };";

const ENDLESS: &str = "declare function local:f() { local:f() }; local:f()";

// Words, a query, the number of the status, and what is written or said.
type WordsRow = (&'static [&'static str], &'static str, u8, &'static str);

const WORDS: [WordsRow; 14] = [
    (&["query", "q.xq", "d.xml", "n=41"], EXTERNAL, 0, "42"),
    (
        &["query", "q.xq", "d.xml", "n=x"],
        EXTERNAL,
        7,
        "dynamic FORG0001",
    ),
    (
        &["query", "q.xq", "d.xml", "m=41"],
        EXTERNAL,
        7,
        "dynamic XPDY0002",
    ),
    (
        &["query", "q.xq", "d.xml", "m=1", "n=2=3"],
        "declare variable $n external; $n",
        0,
        "2=3",
    ),
    (&["query", "q.xq", "d.xml", "n=1", "n=2"], "1", 1, "usage"),
    (&["query", "q.xq"], "1", 1, "usage"),
    (
        &["query", "q.xq", "d.xml", "--depth", "603"],
        "1",
        1,
        "usage",
    ),
    (
        &["query", "q.xq", "d.xml", "--depth=1"],
        ENDLESS,
        8,
        "deep 1",
    ),
    (&["query", "q.xq", "d.xml"], ENDLESS, 8, "deep 202"),
    (
        &["query", "--depth", "602", "q.xq", "d.xml"],
        ENDLESS,
        8,
        "deep 602",
    ),
    (
        &["query", "q.xq", "d.xml", "--doc", "e.xml"],
        "doc(\"e.xml\")/e/@k + 1",
        0,
        "42",
    ),
    (
        &["query", "q.xq", "d.xml", "--doc", "e.xml"],
        "doc(\"x.xml\")",
        7,
        "dynamic FODC0002",
    ),
    (
        &["query", "--doc=e.xml", "q.xq", "d.xml"],
        "doc(\"e.xml\") is doc(\"e.xml\")",
        0,
        "true",
    ),
    (
        &["query", "q.xq", "d.xml", "--doc", "d.xml"],
        "doc(\"d.xml\") is /",
        0,
        "false",
    ),
];

#[test]
fn words(rt: HostRuntime) {
    for (words, query, number, said) in WORDS {
        assert!(rt;
            ends_so(&rt, words, query.as_bytes(), b"<a/>", number, said),
            "{query}"
        );
    }
}

// The number of calls that a function needs, the words, and how the run ends.
const DEPTHS: [(u32, &[&str], u8, &str); 4] = [
    (202, QUERY, 0, "0"),
    (203, QUERY, 8, "deep 202"),
    (602, &["query", "q.xq", "d.xml", "--depth", "602"], 0, "0"),
    (
        603,
        &["query", "q.xq", "d.xml", "--depth", "602"],
        8,
        "deep 602",
    ),
];

#[test]
fn depths(rt: HostRuntime) {
    for (calls, words, number, said) in DEPTHS {
        let query = format!(in rt.alloc(); "{GO} local:go({calls})");
        let query = query.expect(&rt, "memory");
        assert!(rt;
            ends_so(&rt, words, query.as_bytes(), b"<a/>", number, said),
            "{calls}"
        );
        drop(query);
    }
}

// Words, a query, a document, and the line that is said: what comes first of several causes.
type Refusal = (
    &'static [&'static str],
    &'static [u8],
    &'static [u8],
    u8,
    &'static str,
);

const REFUSALS: [Refusal; 11] = [
    (&["query", "x.xq", "x.xml"], b"1", b"<a/>", 2, "load x.xq"),
    (
        &["query", "q.xq", "x.xml"],
        b"1a",
        b"<a/>",
        5,
        "static XPST0003",
    ),
    (
        &["query", "q.xq", "x.xml"],
        b"'\xff'",
        b"<a/>",
        5,
        "static XPST0003",
    ),
    (
        &["query", "q.xq", "x.xml"],
        b"$x",
        b"<a/>",
        5,
        "static XPST0008",
    ),
    (
        &["query", "q.xq", "x.xml"],
        b"error()",
        b"<a/>",
        2,
        "load x.xml",
    ),
    (
        &["query", "q.xq", "d.xml", "--doc", "x.xml"],
        b"1",
        b"<a>",
        4,
        "malformed d.xml 3",
    ),
    (
        &["query", "q.xq", "d.xml", "--doc=f.xml", "--doc=x.xml"],
        b"1",
        b"<a/>",
        2,
        "load x.xml",
    ),
    (
        &["query", "q.xq", "d.xml", "--doc=f.xml"],
        b"error()",
        b"<a/>",
        4,
        "malformed f.xml 3",
    ),
    (
        &["query", "q.xq", "d.xml", "--doc=e.xml"],
        b"error()",
        b"<a/>",
        7,
        "dynamic FOER0000",
    ),
    (
        QUERY,
        b"declare variable $v := error(); $v, /a/@k",
        b"<a/>",
        7,
        "dynamic FOER0000",
    ),
    (QUERY, b"<a/>, /a/@k", b"<a k='1'/>", 7, "dynamic SENR0001"),
];

#[test]
fn refusals_in_order(rt: HostRuntime) {
    for (words, query, document, number, said) in REFUSALS {
        assert!(rt;
            ends_so(&rt, words, query, document, number, said),
            "{said}"
        );
    }
}

#[test]
fn a_write_fails(rt: HostRuntime) {
    let mut files = files_with(&rt, b"<r/>", b"<a/>");
    let mut out = MemSink::new(rt.alloc());
    out.take_at_most(10);
    out.fail_at(2).expect(&rt, "memory");
    let mut notes = MemSink::new(rt.alloc());
    assert_eq!(rt; status_of(&rt, QUERY, &mut files, &mut out, &mut notes), 9);
    assert_eq!(rt; out.bytes(), b"<?xml vers".as_slice());
    assert_eq!(rt; notes.bytes(), b"write\n".as_slice());
    drop(files);
    drop(out);
    drop(notes);
}
