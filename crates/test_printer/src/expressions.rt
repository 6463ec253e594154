// The bodies of queries as they are printed.
use closed_queries::prolog_rules::Setter;
use query_printer::print_expr;
use query_resolve::query_prologs::prefixes_of;
use std::alloc::AllocGlobal;
use std::process::Abort;
use xquery_syntax::parse_query;
use xt_names::{Binding, List, Text};
use xt_syntax::Prefixes;

// how names are resolved where none are declared
fn predeclared(rt: &(impl Abort + AllocGlobal)) -> Prefixes {
    let setters: List<Setter> = List::new(rt.alloc());
    let prefixes = prefixes_of(rt.alloc(), setters.as_slice()).expect(rt, "memory");
    drop(setters);
    prefixes
}

// the body of the query, printed
fn printed(rt: &(impl Abort + AllocGlobal), prefixes: &Prefixes, text: &str) -> Text {
    match parse_query(rt.alloc(), text) {
        Err(_) => Text::make(rt.alloc(), "none").expect(rt, "memory"),
        Ok(query) => {
            let out = print_expr(rt.alloc(), prefixes, &query.body).expect(rt, "memory");
            drop(query);
            out
        }
    }
}

// whether the body of the query is printed so, and that as it is
fn is_printed(rt: &(impl Abort + AllocGlobal), text: &str, expected: &str) -> bool {
    let prefixes = predeclared(rt);
    let once = printed(rt, &prefixes, text);
    let twice = printed(rt, &prefixes, once.as_str());
    let same = once.as_str() == expected && twice.as_str() == expected;
    drop(once);
    drop(twice);
    drop(prefixes);
    same
}

// how names are resolved where two prefixes are bound to one uri, and one prefix to two uris
fn shared_uris(rt: &(impl Abort + AllocGlobal)) -> Prefixes {
    let mut setters = List::new(rt.alloc());
    for (prefix, uri) in [
        ("p", "urn:1"),
        ("p", "urn:2"),
        ("q", "urn:2"),
        ("r", "urn:2"),
    ] {
        let binding = Binding {
            prefix: Text::make(rt.alloc(), prefix).expect(rt, "memory"),
            uri: Text::make(rt.alloc(), uri).expect(rt, "memory"),
        };
        setters
            .push(Setter::Namespace(binding))
            .expect(rt, "memory");
    }
    let prefixes = prefixes_of(rt.alloc(), setters.as_slice()).expect(rt, "memory");
    drop(setters);
    prefixes
}

// the first prefix is taken that has the uri
#[test]
fn shared_prefixes(rt: HostRuntime) {
    let prefixes = shared_uris(&rt);
    let cases = [
        ("declare namespace z = 'urn:1'; z:a", "child :: p:a"),
        (
            "declare namespace z = 'urn:2'; z:a, z:*, @z:a",
            "child :: q:a , child :: q:* , attribute :: q:a",
        ),
    ];
    for (text, expected) in cases {
        let out = printed(&rt, &prefixes, text);
        assert!(rt; out.as_str() == expected);
        drop(out);
    }
    drop(prefixes);
}

#[test]
fn operators(rt: HostRuntime) {
    let cases = [
        ("1+2*3", "1 + 2 * 3"),
        ("(1+2)*3", "( 1 + 2 ) * 3"),
        ("(1-2)-3", "1 - 2 - 3"),
        ("1-(2-3)", "1 - ( 2 - 3 )"),
        ("(1 or 2) and 3", "( 1 or 2 ) and 3"),
        ("1 or (2 and 3)", "1 or 2 and 3"),
        ("-(1)", "- 1"),
        ("((1)) < ((2, 3))", "1 < ( 2 , 3 )"),
        ("1 to 3, 'it''s'", "1 to 3 , \"it's\""),
        (
            "(1 instance of xs:integer) * 2",
            "( 1 instance of xs:integer ) * 2",
        ),
        (
            "'1' cast as xs:integer? eq 1",
            "\"1\" cast as xs:integer ? eq 1",
        ),
    ];
    for (text, expected) in cases {
        assert!(rt; is_printed(&rt, text, expected));
    }
}

#[test]
fn paths(rt: HostRuntime) {
    let cases = [
        ("()", "( )"),
        ("/", "( / )"),
        ("/a/@b", "/ child :: a / attribute :: b"),
        (
            "//a[1]",
            "/ descendant-or-self :: node ( ) / child :: a [ 1 ]",
        ),
        ("(1,2)[2]", "( 1 , 2 ) [ 2 ]"),
        ("fn:count((1,2))", "count ( ( 1 , 2 ) )"),
    ];
    for (text, expected) in cases {
        assert!(rt; is_printed(&rt, text, expected));
    }
}

#[test]
fn clauses(rt: HostRuntime) {
    let cases = [
        ("if (1) then 2 else 3", "if ( 1 ) then\n  2\nelse\n  3"),
        (
            "if (1) then 2 else if (3) then 4 else 5",
            "if ( 1 ) then\n  2\nelse if ( 3 ) then\n  4\nelse\n  5",
        ),
        ("let $a := 1 return $a", "let $ a := 1\nreturn $ a"),
        (
            "for $i in (1,2), $j in 3 where $i = $j order by $i descending return ($i, $j)",
            "for $ i in ( 1 , 2 ) ,\n    $ j in 3\nwhere $ i = $ j\norder by $ i descending\n\
                return ( $ i , $ j )",
        ),
        (
            "some $x in (1,2) satisfies $x = 1",
            "some $ x in ( 1 , 2 ) satisfies $ x = 1",
        ),
    ];
    for (text, expected) in cases {
        assert!(rt; is_printed(&rt, text, expected));
    }
}

#[test]
fn constructors(rt: HostRuntime) {
    let cases = [
        ("<a></a>", "<a/>"),
        (
            "<a b='{1}&lt;'>x{ 2 }<c>{{</c></a>",
            "<a b=\"{ 1 }&lt;\">x{ 2 }<c>{{</c></a>",
        ),
        ("element a {1}", "element a {\n  1\n}"),
        ("text { 'a&amp;b' }", "text {\n  \"a&amp;b\"\n}"),
    ];
    for (text, expected) in cases {
        assert!(rt; is_printed(&rt, text, expected));
    }
}

// a line ends before a token that would pass 100 columns
#[test]
fn long_lines(rt: HostRuntime) {
    let text = "'aaaaaaaaaaaaaaaaaaaaaaaaaaaaaa','bbbbbbbbbbbbbbbbbbbbbbbbbbbbbb',\
        'cccccccccccccccccccccccccccccc','dddddddddddddddddddddddddddddd'";
    let expected = "\"aaaaaaaaaaaaaaaaaaaaaaaaaaaaaa\" , \"bbbbbbbbbbbbbbbbbbbbbbbbbbbbbb\" ,\n  \
        \"cccccccccccccccccccccccccccccc\" , \"dddddddddddddddddddddddddddddd\"";
    assert!(rt; is_printed(&rt, text, expected));
}
