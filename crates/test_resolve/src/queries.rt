// Texts of queries, from their characters to what they mean, and why they are none (XQuery 1.0, 3
// and 4).
use crate::shown::query_body;
use std::alloc::AllocGlobal;
use std::process::Abort;

fn are_told(rt: &(impl Abort + AllocGlobal), cases: &[(&str, &str)]) {
    for (text, wanted) in cases {
        let found = query_body(rt, text);
        assert_eq!(rt; found.as_str(), *wanted, "{text}");
        drop(found);
    }
}

// Where the longest token decides.
#[test]
fn tokens_of_queries(rt: HostRuntime) {
    let cases = [
        ("a-1", "child::a-1"),
        ("a -1", "-(child::a 1)"),
        ("let $a := 5 return $a -1", "flwor let a(5 -($a 1))"),
        ("let $a := 5 return $a-1", "XPST0008"),
        ("let $a-1 := 5 return $a-1", "flwor let a-1(5 $a-1)"),
        ("1a", "syntax"),
        ("1.5", "syntax"),
        ("p:*", "XPST0081"),
        ("declare namespace p = 'u'; p:*", "child::{u}*"),
        ("*:a", "child::{*}a"),
        ("a:=1", "syntax"),
        ("child::a", "child::a"),
        ("'(:'", "'(:'"),
        ("(: '(:' :) :) 1", "1"),
        ("(: (: :) :) 1", "1"),
        ("(: 1", "syntax"),
        ("* * *", "*(child::* child::*)"),
        ("- - 1", "minus(minus(1))"),
        ("/ * 2", "syntax"),
        ("(/) * 2", "*(root 2)"),
        ("9223372036854775807 + 1", "+(9223372036854775807 1)"),
        ("9223372036854775808", "syntax"),
        ("'&#x41;&lt;'", "'A<'"),
        ("'a''b'", "'a'b'"),
        ("'{{'", "'{{'"),
        ("'&a;'", "syntax"),
        ("if", "child::if"),
        ("declare", "child::declare"),
        ("ordering", "child::ordering"),
    ];
    are_told(&rt, cases.as_slice());
}

#[test]
fn operators_and_clauses(rt: HostRuntime) {
    let cases = [
        ("", "syntax"),
        ("1 = 2 = 3", "syntax"),
        ("1 to 2 to 3", "syntax"),
        ("1 - 2 - 3", "-(-(1 2) 3)"),
        ("a<b", "any-lt(child::a child::b)"),
        ("a <b", "any-lt(child::a child::b)"),
        ("1 < <b/>", "any-lt(1 <b)"),
        ("<a/> < <b/>", "any-lt(<a <b)"),
        ("<a/>/b", "path(<a child::b)"),
        ("/<a/>", "path(root <a)"),
        ("/ < 1", "any-lt(root 1)"),
        ("if (1) then 2 else if (3) then 4 else 5", "if(1 2 3 4 5)"),
        ("if (1) then 2 else (if (3) then 4 else 5)", "if(1 2 3 4 5)"),
        (
            "if (1) then (if (2) then 3 else 4) else 5",
            "if(1 if(2 3 4) 5)",
        ),
        ("1 instance of item()*", "instance-of-item*(1)"),
        ("1 instance of item() * 2", "syntax"),
        ("1 treat as xs:integer + 1", "syntax"),
        ("(1 treat as xs:integer) + 1", "+(treat-as-integer(1) 1)"),
        ("1 cast as xs:integer + 1", "+(cast-as-integer(1) 1)"),
        ("xs:integer(1)", "cast-as-integer?(1)"),
        ("f(1)", "XPST0017"),
        (
            "for $x at $p in (3, 1, 2) order by $x return $p",
            "flwor for x at p(comma(3 1 2) $x $p)",
        ),
        (
            "let $x as item()* := () where $x order by $x descending empty least return 1",
            "flwor let x(comma $x $x 1)",
        ),
        (
            "for $x in 1, $y in $x return $y",
            "flwor for x for y(1 $x $y)",
        ),
        ("for $x in $x return 1", "XPST0008"),
        (
            "for $x in 1 let $x := $x return $x",
            "flwor for x let x(1 $x $x)",
        ),
        (
            "some $x as xs:integer in (1, 2), $y in $x satisfies $y",
            "some(comma(1 2) $x $y)",
        ),
        ("text { 'a' }", "text('a')"),
        ("processing-instruction p { 1 }", "pi-p(1)"),
        ("document { <a/> }", "document(<a)"),
        ("element { 'a' } { 1 }", "element-computed('a' 1)"),
        (
            "declare default element namespace 'u'; element b { attribute c { 1 } }",
            "element-{u}b(attribute-c(1))",
        ),
        (
            "declare default element namespace 'u'; b/@c | element(d)",
            "union(path(child::{u}b attribute::c) child::element[{u}d])",
        ),
        (
            "//a",
            "path(path(root descendant-or-self::node[]) child::a)",
        ),
    ];
    are_told(&rt, cases.as_slice());
}

// White space between tags, braces and ends goes, where it is written as such (XQuery 1.0, 3.7.1.4).
#[test]
fn direct_elements(rt: HostRuntime) {
    let cases = [
        ("<a>{1}{2}</a>", "<a(1 2)"),
        ("<a>{1, 2}</a>", "<a(comma(1 2))"),
        ("<a>{{}}</a>", "<a('{}')"),
        ("<a>x{{y</a>", "<a('x{y')"),
        ("<a>&#x41;&amp;</a>", "<a('A&')"),
        ("<a>}</a>", "syntax"),
        ("<a></b>", "syntax"),
        ("<a><b></a></b>", "syntax"),
        ("<a>{ <b>{ 1 }</b> }</a>", "<a(<b(1))"),
        ("< a/>", "syntax"),
        ("<a b='{1}{2}' c=\"x{3}y\"/>", "<a(1 2 'x' 3 'y')"),
        ("<a b='&#x41;{{}}'/>", "<a('A{}')"),
        ("<a b='\"' c=\"'\"/>", "<a('\"' ''')"),
        ("<a b='''' c=\"\"\"\"/>", "<a(''' '\"')"),
        ("<a b='1'c='2'/>", "syntax"),
        ("<a b='1' b='2'/>", "XQST0040"),
        (
            "declare default element namespace 'u'; <a b='x'/>",
            "<{u}a('x')",
        ),
        ("<a> </a>", "<a"),
        ("<a> <b/> </a>", "<a(<b)"),
        ("<a> {1} </a>", "<a(1)"),
        ("<a>{1} {2}</a>", "<a(1 2)"),
        ("<a>\n\t<b/>\r\n{1} </a>", "<a(<b 1)"),
        ("<a> x </a>", "<a(' x ')"),
        ("<a> x {1} </a>", "<a(' x ' 1)"),
        ("<a>&#32;<b/></a>", "<a(' ' <b)"),
        ("<a> &#32; </a>", "<a('   ')"),
        ("<a> {{ </a>", "<a(' { ')"),
        ("<a> {' '} </a>", "<a(' ')"),
        ("<a b=' '/>", "<a(' ')"),
        ("<a b=' {1} '/>", "<a(' ' 1 ' ')"),
        ("declare boundary-space strip; <a> <b> </b> </a>", "<a(<b)"),
        (
            "declare boundary-space preserve; <a> <b/> </a>",
            "<a(' ' <b ' ')",
        ),
        (
            "declare boundary-space preserve; <a> {1} {2} </a>",
            "<a(' ' 1 ' ' 2 ' ')",
        ),
    ];
    are_told(&rt, cases.as_slice());
}
