// What expressions mean.
use crate::shown::{meant, type_meant};

#[test]
fn primaries_and_operators(rt: HostRuntime) {
    let cases = [
        ("1", "1"),
        ("'s'", "'s'"),
        ("$ p:v", "${u}v"),
        ("$ v", "$v"),
        (".", "."),
        ("( )", "comma"),
        ("( 1 )", "1"),
        ("1 , 2 , 3", "comma(1 2 3)"),
        ("f ( )", "{f}f"),
        ("p:f ( 1 , 2 )", "{u}f(1 2)"),
        ("xs:integer ( 1 )", "cast-as-integer?(1)"),
        ("1 - 2 - 3", "-(-(1 2) 3)"),
        ("1 + 2 * 3", "+(1 *(2 3))"),
        ("- + 1", "minus(plus(1))"),
        ("1 or 2 or 3", "or(1 2 3)"),
        ("1 and 2", "and(1 2)"),
        ("1 = 2", "any-eq(1 2)"),
        ("1 >= 2", "any-ge(1 2)"),
        ("1 lt 2", "lt(1 2)"),
        ("1 is 2", "is(1 2)"),
        ("1 << 2", "before(1 2)"),
        ("1 >> 2", "after(1 2)"),
        ("1 to 2", "to(1 2)"),
        ("1 union 2 | 3", "union(union(1 2) 3)"),
        ("1 intersect 2 except 3", "except(intersect(1 2) 3)"),
        ("1 instance of xs:QName +", "instance-of-QName+(1)"),
        ("1 treat as item ( ) *", "treat-as-item*(1)"),
        ("1 castable as xs:string ?", "castable-as-string?(1)"),
        ("1 cast as xs:boolean", "cast-as-boolean(1)"),
        ("if ( 1 ) then 2 else 3", "if(1 2 3)"),
        (
            "if ( 1 ) then 2 else ( if ( 3 ) then 4 else 5 )",
            "if(1 2 3 4 5)",
        ),
        ("some $ a in 1 , $ b in 2 satisfies 3", "some(1 2 3)"),
        ("every $ a in 1 satisfies 2", "every(1 2)"),
    ];
    for (words, wanted) in cases {
        let found = meant(&rt, true, words);
        assert_eq!(rt; found.as_str(), wanted, "{words}");
        drop(found);
    }
}

#[test]
fn paths_and_bindings(rt: HostRuntime) {
    let cases = [
        ("/", "root"),
        ("/ a", "path(root child::{e}a)"),
        (
            "// @ a",
            "path(path(root descendant-or-self::node[]) attribute::a)",
        ),
        (
            "a / b // c",
            "path(path(path(child::{e}a child::{e}b) descendant-or-self::node[]) child::{e}c)",
        ),
        ("self :: *", "self::*"),
        ("attribute :: a", "attribute::a"),
        ("p:* / *:a", "path(child::{u}* child::{*}a)"),
        ("..", "parent::node[]"),
        ("a [ 1 ] [ 2 ]", "child::{e}a(1 2)"),
        ("$ a [ 1 ]", "filter($a 1)"),
        ("( a ) [ 1 ]", "filter(child::{e}a 1)"),
        ("text ( )", "child::text[]"),
        ("processing-instruction ( 's' )", "child::pi[s]"),
        ("element ( a )", "child::element[{e}a]"),
        ("attribute ( a )", "attribute::attribute[a]"),
        ("attribute ( )", "attribute::attribute[*]"),
        ("self :: document-node ( )", "self::document[]"),
        (
            "for $ a in 1 , $ b in 2 return 3",
            "flwor for a for b(1 2 3)",
        ),
        (
            "for $ a as xs:string ? at $ p:i in 1 let $ b := 2 where 3 \
             stable order by 4 descending return 5",
            "flwor for a as string? at {u}i let b(1 2 3 4 5)",
        ),
    ];
    for (words, wanted) in cases {
        let found = meant(&rt, true, words);
        assert_eq!(rt; found.as_str(), wanted, "{words}");
        drop(found);
    }
}

#[test]
fn constructors(rt: HostRuntime) {
    let cases = [
        ("element a { 1 }", "element-{e}a(1)"),
        ("attribute a { }", "attribute-a(comma)"),
        ("element { 1 } { 2 }", "element-computed(1 2)"),
        ("processing-instruction a { 1 }", "pi-a(1)"),
        ("processing-instruction { 1 } { }", "pi-computed(1 comma)"),
        ("document { 1 }", "document(1)"),
        ("text { 1 }", "text(1)"),
        ("comment { 1 }", "comment(1)"),
        ("#<a #/>", "<{e}a"),
        (
            "#<p:a #=b #t #_ #{ 1 } #q #> #_ #{ 2 } #</p:a",
            "<{u}a('t ' 1 2)",
        ),
        ("#<a #> #_ #& #</a", "<{e}a('  ')"),
        ("#<a #> #_ #<<b #/> #t #_ #</a", "<{e}a(<{e}b 't ')"),
    ];
    for (words, wanted) in cases {
        let found = meant(&rt, true, words);
        assert_eq!(rt; found.as_str(), wanted, "{words}");
        drop(found);
    }
    let kept = meant(&rt, false, "#<a #> #_ #{ 1 } #</a");
    assert_eq!(rt; kept.as_str(), "<{e}a(' ' 1)");
    drop(kept);
}

#[test]
fn types(rt: HostRuntime) {
    let cases = [
        ("xs:integer", "integer"),
        ("xs:integer *", "integer*"),
        ("item ( ) ?", "item?"),
        ("empty-sequence ( )", "empty"),
        ("element ( a ) +", "element[{e}a]+"),
        ("node ( )", "node[]"),
        ("integer", "XPST0051"),
        ("q:integer ?", "XPST0081"),
        ("xs:float *", "XPST0051"),
    ];
    for (words, wanted) in cases {
        let found = type_meant(&rt, words);
        assert_eq!(rt; found.as_str(), wanted, "{words}");
        drop(found);
    }
}
