// Expressions of XPath, as XPath 2.0, A.1 reads them.
use crate::shown::read;
use expr_terms::Language;

#[test]
fn operators_and_primaries(rt: HostRuntime) {
    let cases = [
        ("1", "Number(1)"),
        ("'s'", "Literal('s')"),
        ("$ a", "Variable(a)"),
        ("$ p:if", "Variable(p:if)"),
        (".", "Context()"),
        ("..", "ParentStep()"),
        ("( )", "Parens()"),
        ("( 1 )", "Parens(Number(1))"),
        ("( ( 1 ) )", "Parens(Number(1))"),
        ("( ( ) )", "Parens()"),
        ("1 , 2 , 3", "ExprList(Number(1) Number(2) Number(3))"),
        ("( 1 , 2 )", "Parens(ExprList(Number(1) Number(2)))"),
        ("f ( )", "Call(f)"),
        ("f ( 1 )", "Call(f ArgumentList(Number(1)))"),
        (
            "p:f ( 1 , a )",
            "Call(p:f ArgumentList(Number(1) TestStep(a)))",
        ),
        (
            "f ( ( 1 , 2 ) )",
            "Call(f ArgumentList(Parens(ExprList(Number(1) Number(2)))))",
        ),
        (
            "1 - 2 - 3",
            "Additive(Number(1) Op(- Number(2)) Op(- Number(3)))",
        ),
        (
            "1 + 2 * 3",
            "Additive(Number(1) Op(+ Multiplicative(Number(2) Op(* Number(3)))))",
        ),
        (
            "1 * 2 + 3",
            "Additive(Multiplicative(Number(1) Op(* Number(2))) Op(+ Number(3)))",
        ),
        (
            "1 idiv 2 mod 3",
            "Multiplicative(Number(1) Op(idiv Number(2)) Op(mod Number(3)))",
        ),
        ("* * *", "Multiplicative(TestStep(*) Op(* TestStep(*)))"),
        ("- - 1", "Signed(- Signed(- Number(1)))"),
        ("1 - - 1", "Additive(Number(1) Op(- Signed(- Number(1))))"),
        ("- 1 + 2", "Additive(Signed(- Number(1)) Op(+ Number(2)))"),
        ("1 to 2", "Range(Number(1) Op(to Number(2)))"),
        ("1 = 2", "Comparison(Number(1) Op(= Number(2)))"),
        ("a < b", "Comparison(TestStep(a) Op(< TestStep(b)))"),
        ("a is b", "Comparison(TestStep(a) Op(is TestStep(b)))"),
        ("a << b", "Comparison(TestStep(a) Op(<< TestStep(b)))"),
        (
            "1 eq 2 or 3 and 4",
            "Or(Comparison(Number(1) Op(eq Number(2))) Op(or And(Number(3) Op(and Number(4)))))",
        ),
        (
            "a union b | c",
            "Union(TestStep(a) Op(union TestStep(b)) Op(| TestStep(c)))",
        ),
        (
            "a intersect b except c",
            "Intersect(TestStep(a) Op(intersect TestStep(b)) Op(except TestStep(c)))",
        ),
        ("or or or", "Or(TestStep(or) Op(or TestStep(or)))"),
        (
            "1 instance of item ( ) *",
            "InstanceOf(Number(1) Op(ItemsType(AnyItem() *)))",
        ),
        ("1 treat as xs:integer + 1", "none"),
        ("1 treat as xs:integer", "Treat(Number(1) Op(xs:integer))"),
        (
            "1 castable as xs:integer ?",
            "Castable(Number(1) Op(SingleAtomicType(xs:integer QuestionMark())))",
        ),
        (
            "1 cast as xs:integer + 1",
            "Additive(Cast(Number(1) Op(SingleAtomicType(xs:integer))) Op(+ Number(1)))",
        ),
        (
            "1 cast as xs:integer ? + 1",
            "Additive(Cast(Number(1) Op(SingleAtomicType(xs:integer QuestionMark()))) Op(+ \
             Number(1)))",
        ),
    ];
    for (words, wanted) in cases {
        let found = read(&rt, Language::Xpath, words);
        assert_eq!(rt; found.as_str(), wanted, "{words}");
        drop(found);
    }
}

#[test]
fn paths_and_words(rt: HostRuntime) {
    let cases = [
        ("/", "Rooted()"),
        ("/ a", "RootSteps(TestStep(a))"),
        ("/ a / b", "RootSteps(TestStep(a) StepAfter(TestStep(b)))"),
        ("// a", "RootedDeep(TestStep(a))"),
        (
            "a / b // c",
            "Steps(TestStep(a) StepAfter(TestStep(b)) DeepAfter(TestStep(c)))",
        ),
        ("/ * 2", "none"),
        (
            "/ * * 2",
            "Multiplicative(RootSteps(TestStep(*)) Op(* Number(2)))",
        ),
        (
            "( / ) * 2",
            "Multiplicative(Parens(Rooted()) Op(* Number(2)))",
        ),
        ("/ + 2", "Additive(Rooted() Op(+ Number(2)))"),
        ("/ = 2", "Comparison(Rooted() Op(= Number(2)))"),
        ("child :: a", "AxisStep(child a)"),
        ("attribute :: *", "AxisStep(attribute *)"),
        ("self :: node ( )", "AxisStep(self PlainKind(node))"),
        ("namespace :: a", "AxisStep(namespace a)"),
        ("@ a", "AttributeStep(a)"),
        ("@ p:*", "AttributeStep(p:*)"),
        ("*:a", "TestStep(*:a)"),
        ("a [ 1 ] [ b ]", "TestStep(a Number(1) TestStep(b))"),
        ("$ a [ 1 ]", "FilterStep(Variable(a) Number(1))"),
        (".. [ 1 ]", "ParentStep(Number(1))"),
        ("@ a [ 1 ]", "AttributeStep(a Number(1))"),
        (
            "child :: a [ 1 , 2 ]",
            "AxisStep(child a ExprList(Number(1) Number(2)))",
        ),
        (
            "a / ( 1 , 2 ) / b",
            "Steps(TestStep(a) StepAfter(Parens(ExprList(Number(1) Number(2)))) \
             StepAfter(TestStep(b)))",
        ),
        ("text ( )", "TestStep(PlainKind(text))"),
        ("document-node ( )", "TestStep(PlainKind(document-node))"),
        ("processing-instruction ( )", "TestStep(PiKind())"),
        ("processing-instruction ( a )", "TestStep(PiKind(a))"),
        ("processing-instruction ( 's' )", "TestStep(PiKind('s'))"),
        ("element ( )", "TestStep(NamedKind(element))"),
        ("element ( * )", "TestStep(NamedKind(element *))"),
        ("attribute ( p:a )", "TestStep(NamedKind(attribute p:a))"),
        ("element", "TestStep(element)"),
        ("text / if", "Steps(TestStep(text) StepAfter(TestStep(if)))"),
        ("if", "TestStep(if)"),
        (
            "for / return",
            "Steps(TestStep(for) StepAfter(TestStep(return)))",
        ),
        (
            "if ( a ) then b else c",
            "IfExpr(TestStep(c) TestStep(b) TestStep(a))",
        ),
        (
            "if ( a ) then b else if ( c ) then d else e",
            "IfExpr(TestStep(e) TestStep(d) TestStep(c) TestStep(b) TestStep(a))",
        ),
        (
            "if ( a ) then b else ( ( if ( c ) then d else e ) )",
            "IfExpr(TestStep(e) TestStep(d) TestStep(c) TestStep(b) TestStep(a))",
        ),
        (
            "if ( a ) then if ( b ) then c else d else e",
            "IfExpr(TestStep(e) IfExpr(TestStep(d) TestStep(c) TestStep(b)) TestStep(a))",
        ),
        (
            "if ( 1 , 2 ) then 3 else 4 + 5",
            "IfExpr(Additive(Number(4) Op(+ Number(5))) Number(3) ExprList(Number(1) Number(2)))",
        ),
        (
            "for $ a in b return c , d",
            "ExprList(FlworExpr(ForClause(ForIn(a TestStep(b))) TestStep(c)) TestStep(d))",
        ),
        (
            "for $ a in 1 , $ b in 2 return 3",
            "FlworExpr(ForClause(ForIn(a Number(1)) ForIn(b Number(2))) Number(3))",
        ),
        (
            "some $ a in 1 , $ b in 2 satisfies $ a",
            "QuantifiedExpr(some QuantifiedIn(a Number(1)) QuantifiedIn(b Number(2)) Variable(a))",
        ),
        (
            "every $ a in 1 satisfies 2",
            "QuantifiedExpr(every QuantifiedIn(a Number(1)) Number(2))",
        ),
    ];
    for (words, wanted) in cases {
        let found = read(&rt, Language::Xpath, words);
        assert_eq!(rt; found.as_str(), wanted, "{words}");
        drop(found);
    }
}
