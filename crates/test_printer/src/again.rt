// What the parser takes is printed so that it is read again as the same query.
use crate::same::same_query;
use crate::texts::text_of;
use std::alloc::AllocGlobal;
use std::process::Abort;
use xquery_syntax::parse_query;
use xt_syntax::Query;

fn query_of(rt: &(impl Abort + AllocGlobal), text: &str) -> Query {
    match parse_query(rt.alloc(), text) {
        Err(_) => panic!(rt; "{text}"),
        Ok(query) => query,
    }
}

// whether what is printed of the query is the same query, and is printed the same
fn is_read_again(rt: &(impl Abort + AllocGlobal), text: &str) -> bool {
    let query = query_of(rt, text);
    let once = text_of(rt, &query);
    let again = query_of(rt, once.as_str());
    let twice = text_of(rt, &again);
    let same = once.as_str() == twice.as_str() && same_query(&query, &again);
    drop(query);
    drop(once);
    drop(again);
    drop(twice);
    same
}

#[test]
fn bodies(rt: HostRuntime) {
    let cases = [
        "1",
        "(: a :) 1 (: b :)",
        "1, 2",
        "(1)",
        "declare",
        "xquery",
        "declare + 1",
        "xquery/version",
        "(declare)",
        "1 < 2",
        "1 <a",
        "<a/>",
        "1 + <a/>",
        "<a/> < <b/>",
        "<a>{ 1 <a }</a>",
        "<a b=\"{ 1 < 2 }\">{ <c/> } </a>",
        "if (1 < 2) then <a/> else <b/>",
        "/",
        "/ < 1",
        "/<a/>",
        "/a",
        "//a",
        "(: a (: b :) :) for $x at $y in //a where $x order by $y return <b/>",
        "for $x at $y in 1, $x at $z in 2 return ($x, $y, $z)",
        "for $x at $p in (3, 1, 2) order by $x return $p",
        "let $a := 5 return $a -1",
        "let $a := <a/>, $b := <b/> return $a << $b",
        "let $a := <a/>, $b := <b/> return name(($b | $a)[1])",
        "(-9223372036854775807 - 1) idiv -1",
        "xs:integer(\" 42 \")",
        "xs:untypedAtomic(\"01\") = 1",
        "element r {attribute k {1}, attribute k {2}}",
        "element r {\"t\", attribute k {1}}",
        "(1 to 9223372036854775807)[3]",
        "(1, error())[1]",
        "/a/b[1]/@k",
        "//b[2] << //b[1]",
        "doc(\"d.xml\") is /",
    ];
    for text in cases {
        assert!(rt; is_read_again(&rt, text), "{text}");
    }
}

#[test]
fn longest_tokens(rt: HostRuntime) {
    let cases = [
        "a-1",
        "a -1",
        "*:a",
        "child ::a",
        "a<b",
        "a<=b",
        "a<<b",
        "a//b",
        "..",
        "***",
        "--1",
        "1--1",
        "(/)*2",
        "if",
        "@a",
        "000000000000000000000000000001",
        "9223372036854775807",
        "'it''s'",
        "\"a'b\"",
        "''",
        "\"\"\"\"",
        "'(:'",
        "1(::)",
        "1 cast as xs:integer + 1",
        "p:a,*:b,p:*",
    ];
    for body in cases {
        let text = format!(in rt.alloc(); "declare namespace p = 'u'; {body}");
        let text = text.expect(&rt, "memory");
        assert!(rt; is_read_again(&rt, text.as_str()), "{body}");
        drop(text);
    }
}

#[test]
fn operators_and_paths(rt: HostRuntime) {
    let cases = [
        "1 - 2 - 3",
        "1 + 2 * 3",
        "1 * 2 + 3",
        "1 idiv 2 mod 3",
        "1 - - 1",
        "- 1 + 2",
        "1 to 2",
        "a is b",
        "1 eq 2 or 3 and 4",
        "a union b | c",
        "a intersect b except c",
        "or or or",
        "1 instance of item ( ) *",
        "1 treat as xs:integer",
        "1 castable as xs:integer ?",
        "1 cast as xs:integer ? + 1",
        "/ a / b",
        "/ * * 2",
        "( / ) * 2",
        "/ + 2",
        "/ = 2",
        "attribute :: *",
        "self :: node ( )",
        "a [ 1 ] [ b ]",
        ".. [ 1 ]",
        "@ a [ 1 ]",
        "child :: a [ 1 , 2 ]",
        "a / ( 1 , 2 ) / b",
        "text ( )",
        "document-node ( )",
        "processing-instruction ( )",
        "processing-instruction ( a )",
        "processing-instruction ( 's' )",
        "element ( )",
        "element ( * )",
        "attribute ( a )",
        "text / if",
        "for / return",
        "if ( a ) then b else if ( c ) then d else e",
        "if ( a ) then b else ( ( if ( c ) then d else e ) )",
        "if ( a ) then if ( b ) then c else d else e",
        "if ( 1 , 2 ) then 3 else 4 + 5",
        "for $ a in b return c , d",
        "some $ a in 1 , $ b in 2 satisfies $ a",
    ];
    for text in cases {
        assert!(rt; is_read_again(&rt, text), "{text}");
    }
}

#[test]
fn clauses_and_constructors(rt: HostRuntime) {
    let cases = [
        "for $ a as item ( ) at $ i in 1 return 2",
        "let $ a as xs:integer := 1 , $ b := 2 return 3",
        "for $ a in 1 let $ b := 2 return 3",
        "let $ a := 1 order by 2 , 3 return 4",
        "let $ a := 1 order by 2 descending empty least return 3",
        "for $ a in 1 stable order by 2 ascending return 3",
        "for $ a in 1 for $ b in 2 return 3",
        "some $ a as node ( ) * in 1 satisfies 2",
        "element { 1 } { 2 }",
        "attribute { 1 } { }",
        "processing-instruction { 1 } { 2 }",
        "attribute if { }",
        "comment { 1 } [ 2 ]",
        "<a  b='1' c = \"2\" />",
        "<if \n/>",
        "<a b=\"'\"/>",
        "<a b='\"'/>",
        "<a b=\"x\"\"y\"/>",
        "<a b='x''y'/>",
        "<a b=\"''\"/>",
        "<a b=\"{'}'}\"/>",
        "<a b='{ 1 }{2}'/>",
        "<a b='{{}}'/>",
        "<a b='{<b c=\"d\"/>}'/>",
        "<a b='&#x41;b&#10;'/>",
        "<a b='x\r\ny\tz\n'/>",
        "<a b='>(: :)'/>",
        "<a>{{x}}</a>",
        "<a>{\"{\"}</a>",
        "<a>{1}{2}</a>",
        "<a>{ element b { 1 } }</a>",
        "<a> <b>t</b> </a>",
        "<a>&#x41;b&lt;</a>",
        "<a>x\r\ny\rz\n</a>",
        "<a>'\"(: x :)]]></a>",
        "<a>{a<b}</a>",
        "<a b=''></a>",
        "<a><b></b></a>",
        "'&#13;\n'",
        "'&#x10FFFF;'",
        "'&amp;lt;'",
    ];
    for text in cases {
        assert!(rt; is_read_again(&rt, text), "{text}");
    }
}

#[test]
fn prologs(rt: HostRuntime) {
    let cases = [
        "xquery version '1.0'; 1",
        "xquery version '1.0' encoding 'utf-8'; 1",
        "declare namespace p = 'u'; declare namespace q = ''; p:a",
        "declare namespace local = 'u'; local:a",
        "declare ordering ordered; declare ordering ordered; 1",
        "declare default order empty least; declare default order empty least; 1",
        "declare copy-namespaces no-preserve, no-inherit; declare boundary-space strip; 1",
        "declare boundary-space strip; <a> <b/> </a>",
        "declare boundary-space preserve; <a> <b/> </a>",
        "declare variable $x := 1; declare variable $y as xs:integer external; ($x, $y)",
        "declare variable $a as xs:integer* := 1 < 2; <b/>",
        "declare variable $a := <b>;</b>; 1",
        "declare namespace p = 'u'; declare variable $p:a as item()+ external; 1",
        "declare namespace p = 'u'; <p:a p:k='{ 1 }'> { <b>t</b> } </p:a>",
        "declare namespace p = 'u'; <a p:xmlns='u'/>",
        "declare namespace p = 'u'; declare function p:f() { 1 }; p:f()",
        "declare function local:f($a, $b as item()) as node()* \
            { element c { <d e='{ 1 }'>{ 2 }</d> } }; 1",
        "declare function local:f($a) { $a }; declare variable $v := local:f(1); \
            declare function local:f($a as node(), $v) as node()* { local:f($v) }; local:f(1, 2)",
        "declare function local:f() { local:g() }; declare function local:g() { 1 }; local:f()",
        "declare function local:go($i) { if ($i = 1) then 0 else local:go($i - 1) }; local:go(9)",
        "declare option space 'strip'; 1",
        "declare namespace o = 'urn:xslt2xq'; declare option o:other 'strip'; 1",
        "declare namespace o = 'urn:xslt2xq'; declare option o:space '  '; 1",
        "declare namespace o = 'urn:xslt2xq'; declare option o:space ' strip * '; \
            declare option o:declaration 'omit'; 1",
        "declare namespace o = 'urn:xslt2xq'; \
            declare option o:space 'preserve a strip o:b preserve o:* strip *:c'; 1",
    ];
    for text in cases {
        assert!(rt; is_read_again(&rt, text), "{text}");
    }
}
