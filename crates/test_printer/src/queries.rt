// Whole queries as they are printed, read again and printed again.
use crate::texts::{HEAD, is_printed, printed};

#[test]
fn operators(rt: HostRuntime) {
    let cases = [
        ("1+2*3", "1 + 2 * 3"),
        ("(1+2)*3", "( 1 + 2 ) * 3"),
        ("1 - (2 - 3) - 4", "1 - ( 2 - 3 ) - 4"),
        ("8 idiv 2 mod 3", "8 idiv 2 mod 3"),
        ("- + 1", "- + 1"),
        ("-(1 + 2)", "- ( 1 + 2 )"),
        ("(1, 2) = 3", "( 1 , 2 ) = 3"),
        (
            "1 != 2, 1 < 2, 1 <= 2, 1 > 2, 1 >= 2",
            "1 != 2 , 1 < 2 , 1 <= 2 , 1 > 2 , 1 >= 2",
        ),
        (
            "1 eq 2, 1 ne 2, 1 lt 2, 1 le 2, 1 gt 2, 1 ge 2",
            "1 eq 2 , 1 ne 2 , 1 lt 2 , 1 le 2 , 1 gt 2 , 1 ge 2",
        ),
        (". is ., . << ., . >> .", ". is . , . << . , . >> ."),
        ("1 to 2 + 3", "1 to 2 + 3"),
        ("(1 = 2) = 3", "( 1 = 2 ) = 3"),
        ("1 or 2 or 3 and 4", "1 or 2 or 3 and 4"),
        (
            "a | b union c",
            "child :: a union child :: b union child :: c",
        ),
        (
            "a except (b intersect c)",
            "child :: a except ( child :: b intersect child :: c )",
        ),
        (
            "(1 treat as xs:integer?) * 2",
            "1 treat as xs:integer ? * 2",
        ),
        (
            "(1 instance of xs:integer) + 2",
            "( 1 instance of xs:integer ) + 2",
        ),
        ("0, 9223372036854775807", "0 , 9223372036854775807"),
        ("-9223372036854775807", "- 9223372036854775807"),
    ];
    for (text, expected) in cases {
        assert!(rt; is_printed(&rt, text, HEAD, expected));
    }
}

#[test]
fn types_and_paths(rt: HostRuntime) {
    let cases = [
        (
            "'1' castable as xs:string, '1' cast as xs:boolean?",
            "\"1\" castable as xs:string , \"1\" cast as xs:boolean ?",
        ),
        ("xs:integer('1')", "\"1\" cast as xs:integer ?"),
        (
            ". instance of node(), . instance of text()*",
            ". instance of node ( ) , . instance of text ( ) *",
        ),
        (". instance of element(a)?", ". instance of element ( a ) ?"),
        (
            ". instance of attribute(*)",
            ". instance of attribute ( * )",
        ),
        (
            ". instance of processing-instruction('a')+",
            ". instance of processing-instruction ( \"a\" ) +",
        ),
        (
            "() instance of empty-sequence()",
            "( ) instance of empty-sequence ( )",
        ),
        ("/", "( / )"),
        (
            "//a/@b",
            "/ descendant-or-self :: node ( ) / child :: a / attribute :: b",
        ),
        ("../self::*", "parent :: node ( ) / self :: *"),
        ("a[b][1, 2]", "child :: a [ child :: b ] [ 1 , 2 ]"),
        ("(1, 2)[2]", "( 1 , 2 ) [ 2 ]"),
        ("*:a/text()", "child :: *:a / child :: text ( )"),
        (
            "(a/b)/(c, d)",
            "child :: a / child :: b / ( child :: c , child :: d )",
        ),
        ("a/(b/c)", "child :: a / ( child :: b / child :: c )"),
        ("if/for", "child :: if / child :: for"),
        ("not(fn:true())", "not ( true ( ) )"),
        ("count((1, 2))", "count ( ( 1 , 2 ) )"),
    ];
    for (text, expected) in cases {
        assert!(rt; is_printed(&rt, text, HEAD, expected));
    }
}

#[test]
fn clauses(rt: HostRuntime) {
    let cases = [
        (
            "1 + (if (1) then 2 else 3)",
            "1 + ( if ( 1 ) then\n      2\n    else\n      3 )",
        ),
        (
            "if (1) then 2 else if (3) then 4 else 5",
            "if ( 1 ) then\n  2\nelse if ( 3 ) then\n  4\nelse\n  5",
        ),
        (
            "for $i at $p in 4 return $p",
            "for $ i at $ p in 4\nreturn $ p",
        ),
        (
            "let $a as xs:integer := 1 let $b := 2 return $a + $b",
            "let $ a as xs:integer := 1\nlet $ b := 2\nreturn $ a + $ b",
        ),
        (
            "for $i in 1 let $j := $i where $j stable order by $j, $i return $j",
            "for $ i in 1\nlet $ j := $ i\nwhere $ j\nstable order by $ j , $ i\nreturn $ j",
        ),
        (
            "for $i in (1, 2), $j in 3 order by $i descending return ($i, $j)",
            "for $ i in ( 1 , 2 ) ,\n    $ j in 3\norder by $ i descending\n\
                return ( $ i , $ j )",
        ),
        (
            "for $i in 1 return for $j in 2 return $j",
            "for $ i in 1\nreturn for $ j in 2\n  return $ j",
        ),
        (
            "some $x in 1, $y in 2 satisfies $x = $y",
            "some $ x in 1 , $ y in 2 satisfies $ x = $ y",
        ),
        (
            "every $x as xs:integer in 1 satisfies $x",
            "every $ x as xs:integer in 1 satisfies $ x",
        ),
    ];
    for (text, expected) in cases {
        assert!(rt; is_printed(&rt, text, HEAD, expected));
    }
}

#[test]
fn constructors(rt: HostRuntime) {
    let cases = [
        ("<a></a>", "<a/>"),
        ("<a b='1' c=\"2\">x</a>", "<a b=\"1\" c=\"2\">x</a>"),
        ("<a> {1}{2, 3} </a>", "<a>{ 1 }{ 2 , 3 }</a>"),
        ("<a>{<b/>}<c><d/></c></a>", "<a>{ <b/> }<c><d/></c></a>"),
        (
            "<a b='x{1}'>{if (1) then 2 else 3}</a>",
            "<a b=\"x{ 1 }\">{ if ( 1 ) then 2 else 3 }</a>",
        ),
        ("element a {1}", "element a {\n  1\n}"),
        ("element {'a'} {}", "element { \"a\" } {\n  ( )\n}"),
        (
            "attribute a {1}, document {2}",
            "attribute a {\n  1\n} , document {\n    2\n  }",
        ),
        ("text {'x'}", "text {\n  \"x\"\n}"),
        ("comment {1}", "comment {\n  1\n}"),
        (
            "processing-instruction a {1}",
            "processing-instruction a {\n  1\n}",
        ),
    ];
    for (text, expected) in cases {
        assert!(rt; is_printed(&rt, text, HEAD, expected));
    }
}

// signs, names with a hyphen, the root, and `<` before a name
#[test]
fn signs_and_names(rt: HostRuntime) {
    let cases = [
        ("a -1", "child :: a - 1"),
        ("a-1", "child :: a-1"),
        ("--1", "- - 1"),
        ("1--1", "1 - - 1"),
        ("1 - (- 1)", "1 - - 1"),
        ("1 - (2 + 3)", "1 - ( 2 + 3 )"),
        ("(1 - 2) * 3", "( 1 - 2 ) * 3"),
        ("2 * (3 * 4)", "2 * ( 3 * 4 )"),
        ("-(1 * 2)", "- ( 1 * 2 )"),
        ("(-1) * 2", "- 1 * 2"),
        ("(/) * 2", "( / ) * 2"),
        ("/ + 2", "( / ) + 2"),
        ("/ < a", "( / ) < child :: a"),
        ("/ * * 2", "/ child :: * * 2"),
        ("1 <a", "1 < child :: a"),
        ("a<b", "child :: a < child :: b"),
        ("a[1 <b]", "child :: a [ 1 < child :: b ]"),
        ("* * *", "child :: * * child :: *"),
        ("1 to (2 to 3)", "1 to ( 2 to 3 )"),
        ("(1 to 2) = 3", "1 to 2 = 3"),
        (
            "(1 cast as xs:integer) cast as xs:string",
            "( 1 cast as xs:integer ) cast as xs:string",
        ),
        ("(1, 2)[(3, 4)]", "( 1 , 2 ) [ 3 , 4 ]"),
        ("1, (2, 3), ()", "1 , ( 2 , 3 ) , ( )"),
        (
            "count((1, 2)), (count(3))",
            "count ( ( 1 , 2 ) ) , count ( 3 )",
        ),
    ];
    for (text, expected) in cases {
        assert!(rt; is_printed(&rt, text, HEAD, expected), "{text}");
    }
}

#[test]
fn axes_and_kinds(rt: HostRuntime) {
    let cases = [
        (
            "ancestor::a, ancestor-or-self::a",
            "ancestor :: a , ancestor-or-self :: a",
        ),
        (
            "descendant::a, following::a",
            "descendant :: a , following :: a",
        ),
        (
            "following-sibling::a, preceding::a",
            "following-sibling :: a , preceding :: a",
        ),
        (
            "preceding-sibling::a, self::a",
            "preceding-sibling :: a , self :: a",
        ),
        ("@*, @*:a", "attribute :: * , attribute :: *:a"),
        ("comment()", "child :: comment ( )"),
        (
            "processing-instruction()",
            "child :: processing-instruction ( )",
        ),
        ("document-node()", "child :: document-node ( )"),
        ("element(a)", "child :: element ( a )"),
        ("attribute(a)", "attribute :: attribute ( a )"),
        (". instance of item()*", ". instance of item ( ) *"),
        (
            ". instance of xs:QName, . instance of xs:untypedAtomic+",
            ". instance of xs:QName , . instance of xs:untypedAtomic +",
        ),
        (
            ". instance of xs:anyAtomicType?",
            ". instance of xs:anyAtomicType ?",
        ),
    ];
    for (text, expected) in cases {
        assert!(rt; is_printed(&rt, text, HEAD, expected), "{text}");
    }
}

#[test]
fn quotes_and_braces(rt: HostRuntime) {
    let cases = [
        ("<a>{{x}}</a>", "<a>{{x}}</a>"),
        ("<a b='{{x}}'/>", "<a b=\"{{x}}\"/>"),
        ("<a b='\"'/>", "<a b=\"\"\"\"/>"),
        ("<a>{\"}\"}</a>", "<a>{ \"}\" }</a>"),
        ("'\"'", "\"\"\"\""),
        ("<a b='{1}{2}c'/>", "<a b=\"{ 1 }{ 2 }c\"/>"),
        ("<a b='{<c d=\"e\"/>}'/>", "<a b=\"{ <c d=\"e\"/> }\"/>"),
        ("<a>x<b>y</b>z</a>", "<a>x<b>y</b>z</a>"),
        ("1 < <a/>", "1 < <a/>"),
        ("/<a/>", "/ <a/>"),
        ("attribute {'a'} {1}", "attribute { \"a\" } {\n  1\n}"),
        (
            "processing-instruction {'a'} {}",
            "processing-instruction { \"a\" } {\n  ( )\n}",
        ),
        ("attribute if {1}", "attribute if {\n  1\n}"),
    ];
    for (text, expected) in cases {
        assert!(rt; is_printed(&rt, text, HEAD, expected), "{text}");
    }
}

// quotes, marks, ends of lines, and characters past those of 16 bits
#[test]
fn characters(rt: HostRuntime) {
    let cases = [
        ("\"a\"\"b'c\"", "\"a\"\"b'c\""),
        ("'it''s'", "\"it's\""),
        ("'&amp;&lt;{}'", "\"&amp;<{}\""),
        ("'&#13;&#10;&#9;'", "\"&#13;\n\t\""),
        (
            "'\u{85}\u{2028}\u{10000}\u{10FFFF}'",
            "\"\u{85}\u{2028}\u{10000}\u{10FFFF}\"",
        ),
        (
            "<a>&lt;&gt;&amp;\"'{{}}&#13;&#10;&#32;</a>",
            "<a>&lt;>&amp;\"'{{}}&#13;\n </a>",
        ),
        ("<a>&#32;</a>", "<a> </a>"),
        (
            "<a b='&lt;&quot;&apos;&#10;&#9;&#13;{{}}'/>",
            "<a b=\"&lt;\"\"'&#10;&#9;&#13;{{}}\"/>",
        ),
        (
            "<a b='\u{85}\u{10FFFF}'>\u{2028}</a>",
            "<a b=\"\u{85}\u{10FFFF}\">\u{2028}</a>",
        ),
    ];
    for (text, expected) in cases {
        assert!(rt; is_printed(&rt, text, HEAD, expected));
    }
}

const VERSION: &str = "xquery version \"1.0\" ;\n";

#[test]
fn prologs(rt: HostRuntime) {
    let cases = [
        (
            "declare namespace p = 'urn:p'; <p:a p:b='1'>{p:c}</p:a>",
            "declare namespace p = \"urn:p\" ;\ndeclare boundary-space preserve ;\n\
                <p:a p:b=\"1\">{ child :: p:c }</p:a>",
        ),
        (
            "declare namespace p = 'u'; declare namespace q = 'u'; q:a, q:*",
            "declare namespace p = \"u\" ;\ndeclare namespace q = \"u\" ;\n\
                declare boundary-space preserve ;\nchild :: p:a , child :: p:*",
        ),
        (
            "declare function local:f($a as xs:integer, $b) as xs:integer { $a };\
                declare variable $x := 1; declare variable $y as xs:string external;\
                local:f($x, $y)",
            "declare boundary-space preserve ;\ndeclare variable $ x := 1 ;\n\
                declare variable $ y as xs:string external ;\n\
                declare function local:f ( $ a as xs:integer , $ b ) as xs:integer {\n  $ a\n} ;\n\
                local:f ( $ x , $ y )",
        ),
        (
            "declare function local:f($n) { if ($n = 0) then 1 else local:f($n - 1) }; local:f(3)",
            "declare boundary-space preserve ;\n\
                declare function local:f ( $ n ) {\n  if ( $ n = 0 ) then\n    1\n  else\n    \
                local:f ( $ n - 1 )\n} ;\nlocal:f ( 3 )",
        ),
        (
            "declare namespace o = 'urn:xslt2xq'; declare namespace p = 'urn:p';\
                declare option o:declaration 'omit';\
                declare option o:space ' preserve  a strip p:* strip *:b strip p:c '; 1",
            "declare namespace o = \"urn:xslt2xq\" ;\ndeclare namespace p = \"urn:p\" ;\n\
                declare boundary-space preserve ;\n\
                declare option o:space \"preserve a strip p:* strip *:b strip p:c\" ;\n\
                declare option o:declaration \"omit\" ;\n1",
        ),
        (
            "declare namespace p = 'urn:f'; declare default function namespace 'urn:f';\
                declare function f() { 1 }; f()",
            "declare namespace p = \"urn:f\" ;\ndeclare boundary-space preserve ;\n\
                declare function p:f ( ) {\n  1\n} ;\np:f ( )",
        ),
    ];
    for (text, expected) in cases {
        assert!(rt; is_printed(&rt, text, VERSION, expected));
    }
}

// names without a prefix that have a uri, where no prefix is bound to it
#[test]
fn no_prefix(rt: HostRuntime) {
    let cases = [
        "declare default element namespace 'urn:e'; a",
        "declare default function namespace 'urn:f'; declare function f() { 1 }; f()",
    ];
    for text in cases {
        let out = printed(&rt, text);
        assert!(rt; out.as_str() == "no");
        drop(out);
    }
}
