// What spells nothing. `div` and the tests of schemas are no part of the language.
use crate::shown::read;
use expr_terms::Language;

#[test]
fn nothing_of_xpath(rt: HostRuntime) {
    let cases = [
        "",
        "1 = 2 = 3",
        "1 to 2 to 3",
        "1 instance of item ( ) instance of item ( )",
        "1 cast as xs:integer cast as xs:integer",
        "1 2",
        "1 +",
        "( 1",
        "1 )",
        "1 ,",
        ", 1",
        "a / / b",
        "a /",
        "//",
        "a [ ]",
        "a [ 1",
        "f ( 1 , )",
        "if ( 1 )",
        "if ( 1 ) then 2",
        "if ( ) then 1 else 2",
        "for $ a in 1",
        "for a in 1 return 2",
        "some $ a in 1 return 2",
        "$",
        "$ 1",
        "@",
        "a ::",
        "foo :: a",
        "p:child :: a",
        "child :: 1",
        "1 div 2",
        "schema-element ( a )",
        "typeswitch ( a )",
        "item ( )",
        "empty-sequence ( )",
        "node ( a )",
        "element ( 1 )",
        "element ( a , b )",
        "1 instance of",
        "1 instance item ( )",
        "1 castable as",
        "1 ?",
        "a ; b",
        "a { 1 }",
        "a := 1",
        "/ instance of item ( )",
        "let $ a := 1 return 2",
        "for $ a at $ i in 1 return 2",
        "for $ a as item ( ) in 1 return 2",
        "element { 1 } { 2 }",
        "text { 1 }",
        "#<a #/>",
        "1 + for $ a in 1 return 2",
        "- if ( 1 ) then 2 else 3",
        "1 or if ( 1 ) then 2 else 3",
    ];
    for words in cases {
        let found = read(&rt, Language::Xpath, words);
        assert_eq!(rt; found.as_str(), "none", "{words}");
        drop(found);
    }
}

#[test]
fn nothing_of_xquery(rt: HostRuntime) {
    let cases = [
        "let $ a at $ i := 1 return 2",
        "for $ a in 1 order by 2 empty return 3",
        "for $ a in 1 order by 2 empty greatest return 3",
        "for $ a in 1 order 2 return 3",
        "for $ a in 1 stable by 2 return 3",
        "for $ a in 1 where 2 where 3 return 4",
        "for $ a in 1 order by 2 where 3 return 4",
        "element { } { 1 }",
        "element { 1 }",
        "document { }",
        "processing-instruction p:a { 1 }",
        "element 1 { 2 }",
        "#<a",
        "#<a #>",
        "#<a #> #</a #</a",
        "#<a #b= #> #</a",
        "#<a #> #<a #/> #</a",
        "#<<a #/>",
        "#t",
        "#<a #{ 1 }",
        "#<a #> #{ } #</a",
        "1 #/>",
        "text { }",
    ];
    for words in cases {
        let found = read(&rt, Language::Xquery, words);
        assert_eq!(rt; found.as_str(), "none", "{words}");
        drop(found);
    }
}
