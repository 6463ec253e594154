// Which static rule is broken first.
use crate::shown::meant;

#[test]
fn each_rule_has_its_code(rt: HostRuntime) {
    let cases = [
        ("$ q:v", "XPST0081"),
        ("$ none:v", "XPST0081"),
        ("q:f ( )", "XPST0081"),
        ("q:a", "XPST0081"),
        ("q:*", "XPST0081"),
        ("@ q:a", "XPST0081"),
        ("element ( q:a )", "XPST0081"),
        ("child :: q:a", "XPST0081"),
        ("namespace :: a", "XPST0010"),
        ("child :: namespace", "child::{e}namespace"),
        ("1 cast as xs:QName", "XPST0051"),
        ("1 cast as xs:anyAtomicType", "XPST0080"),
        ("1 cast as integer", "XPST0051"),
        ("1 cast as q:integer", "XPST0081"),
        ("1 instance of xs:float", "XPST0051"),
        ("1 treat as q:a ?", "XPST0081"),
        ("xs:string ( )", "XPST0017"),
        ("xs:string ( 1 , 2 )", "XPST0017"),
        (
            "xs:QName ( 1 , 2 )",
            "{http://www.w3.org/2001/XMLSchema}QName(1 2)",
        ),
        ("for $ q:a in 1 return 2", "XPST0081"),
        ("for $ a at $ q:a in 1 return 2", "XPST0081"),
        ("let $ q:a := 1 return 2", "XPST0081"),
        ("some $ q:a in 1 satisfies 2", "XPST0081"),
        ("for $ a as xs:float in 1 return 2", "XPST0051"),
        ("element q:a { }", "XPST0081"),
        ("#<q:a #/>", "XPST0081"),
        ("#<a #=q:b #q #/>", "XPST0081"),
        ("#<a #=b #q #=b #q #/>", "XQST0040"),
        ("#<a #=p:b #q #=b #q #/>", "<{e}a"),
    ];
    for (words, wanted) in cases {
        let found = meant(&rt, true, words);
        assert_eq!(rt; found.as_str(), wanted, "{words}");
        drop(found);
    }
}

#[test]
fn the_first_one_counts(rt: HostRuntime) {
    let cases = [
        ("q:a , namespace :: a", "XPST0081"),
        ("namespace :: q:a", "XPST0010"),
        ("namespace :: a [ q:a ]", "XPST0010"),
        ("q:f ( namespace :: a )", "XPST0081"),
        ("1 cast as xs:QName , q:a", "XPST0051"),
        ("if ( q:a ) then namespace :: a else 1", "XPST0081"),
        ("if ( 1 ) then namespace :: a else q:a", "XPST0010"),
        (
            "if ( 1 ) then 2 else if ( namespace :: a ) then 3 else q:a",
            "XPST0010",
        ),
        ("#<a #=b #q #=b #q #=q:c #q #/>", "XPST0081"),
        ("#<a #=b #q #=b #q #> #{ q:c } #</a", "XQST0040"),
        ("xs:string ( q:a , 1 )", "XPST0081"),
    ];
    for (words, wanted) in cases {
        let found = meant(&rt, true, words);
        assert_eq!(rt; found.as_str(), wanted, "{words}");
        drop(found);
    }
}
