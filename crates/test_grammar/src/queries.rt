// Expressions of queries, as XQuery 1.0, A.1 reads them.
use crate::shown::read;
use expr_terms::Language;

#[test]
fn clauses_and_constructors(rt: HostRuntime) {
    let cases = [
        (
            "let $ a := 1 return $ a",
            "FlworExpr(LetClause(LetAssign(a Number(1))) Variable(a))",
        ),
        (
            "for $ a as item ( ) at $ i in 1 return 2",
            "FlworExpr(ForClause(ForIn(a AsType(AnyItem()) AtVariable(i) Number(1))) Number(2))",
        ),
        (
            "let $ a as xs:integer := 1 , $ b := 2 return 3",
            "FlworExpr(LetClause(LetAssign(a AsType(xs:integer) Number(1)) \
             LetAssign(b Number(2))) Number(3))",
        ),
        (
            "for $ a in 1 let $ b := 2 return 3",
            "FlworExpr(ForClause(ForIn(a Number(1))) LetClause(LetAssign(b Number(2))) Number(3))",
        ),
        (
            "for $ a in 1 where 2 return 3",
            "FlworExpr(ForClause(ForIn(a Number(1))) WhereTest(Number(2)) Number(3))",
        ),
        (
            "let $ a := 1 order by 2 , 3 return 4",
            "FlworExpr(LetClause(LetAssign(a Number(1))) \
             OrderBy(OrderKey(Number(2)) OrderKey(Number(3))) Number(4))",
        ),
        (
            "let $ a := 1 order by 2 descending empty least return 3",
            "FlworExpr(LetClause(LetAssign(a Number(1))) \
             OrderBy(OrderKey(Number(2) descending EmptyLeast())) Number(3))",
        ),
        (
            "for $ a in 1 stable order by 2 ascending return 3",
            "FlworExpr(ForClause(ForIn(a Number(1))) StableOrderBy(OrderKey(Number(2) ascending)) \
             Number(3))",
        ),
        (
            "for $ a in 1 for $ b in 2 return 3",
            "FlworExpr(ForClause(ForIn(a Number(1))) ForClause(ForIn(b Number(2))) Number(3))",
        ),
        (
            "some $ a as node ( ) * in 1 satisfies 2",
            "QuantifiedExpr(some QuantifiedIn(a AsType(ItemsType(PlainKind(node) *)) Number(1)) \
             Number(2))",
        ),
        (
            "element { 1 } { 2 }",
            "Computed(element Number(1) Number(2))",
        ),
        ("attribute { 1 } { }", "Computed(attribute Number(1))"),
        (
            "processing-instruction { 1 } { 2 }",
            "Computed(processing-instruction Number(1) Number(2))",
        ),
        (
            "element p:a { 1 , 2 }",
            "Constructed(element p:a ExprList(Number(1) Number(2)))",
        ),
        ("attribute if { }", "Constructed(attribute if)"),
        (
            "processing-instruction a { 1 }",
            "PiConstructed(a Number(1))",
        ),
        ("document { 1 }", "Enclosing(document Number(1))"),
        ("text { 1 }", "Enclosing(text Number(1))"),
        (
            "comment { 1 } [ 2 ]",
            "FilterStep(Enclosing(comment Number(1)) Number(2))",
        ),
        ("#<a #/>", "DirectElement(a EmptyElement())"),
        ("#<a #> #</a", "DirectElement(a ElementContent(a))"),
        (
            "#<a #b= #t #{ 1 } #q #/>",
            "DirectElement(a AttributeValue(b t PartEnclosed(Number(1))) EmptyElement())",
        ),
        (
            "#<a #> #t #{ 2 , 3 } #<<a #/> #</a",
            "DirectElement(a ElementContent(t ItemEnclosed(ExprList(Number(2) Number(3))) \
             ChildElement(a EmptyElement()) a))",
        ),
        (
            "1 < #<a #/>",
            "Comparison(Number(1) Op(< DirectElement(a EmptyElement())))",
        ),
        ("/ #<a #/>", "RootSteps(DirectElement(a EmptyElement()))"),
    ];
    for (words, wanted) in cases {
        let found = read(&rt, Language::Xquery, words);
        assert_eq!(rt; found.as_str(), wanted, "{words}");
        drop(found);
    }
}
