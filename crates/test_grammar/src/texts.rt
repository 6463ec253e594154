// Texts of XPath from their characters on: where the longest token decides, and large texts.
use crate::shown::read_text;
use std::alloc::AllocGlobal;
use std::process::Abort;

#[test]
fn longest_tokens(rt: HostRuntime) {
    let cases = [
        ("a-1", "TestStep(a-1)"),
        ("a -1", "Additive(TestStep(a) Op(- Number(1)))"),
        ("a- 1", "none"),
        ("$a-1", "Variable(a-1)"),
        ("$a -1", "Additive(Variable(a) Op(- Number(1)))"),
        ("1a", "none"),
        ("1 a", "none"),
        ("1.5", "none"),
        ("p:*", "TestStep(p:*)"),
        ("*:a", "TestStep(*:a)"),
        ("p:a", "TestStep(p:a)"),
        ("p :a", "none"),
        ("a:=1", "none"),
        ("child::a", "AxisStep(child a)"),
        ("child ::a", "AxisStep(child a)"),
        ("a<b", "Comparison(TestStep(a) Op(< TestStep(b)))"),
        ("a<=b", "Comparison(TestStep(a) Op(<= TestStep(b)))"),
        ("a<<b", "Comparison(TestStep(a) Op(<< TestStep(b)))"),
        ("a//b", "Steps(TestStep(a) DeepAfter(TestStep(b)))"),
        ("a/ /b", "none"),
        ("..", "ParentStep()"),
        (". .", "none"),
        ("***", "Multiplicative(TestStep(*) Op(* TestStep(*)))"),
        ("--1", "Signed(- Signed(- Number(1)))"),
        ("1--1", "Additive(Number(1) Op(- Signed(- Number(1))))"),
        ("/*2", "none"),
        ("(/)*2", "Multiplicative(Parens(Rooted()) Op(* Number(2)))"),
        ("if", "TestStep(if)"),
        ("if(1)", "none"),
        ("f(1)", "Call(f ArgumentList(Number(1)))"),
        ("1;2", "none"),
        ("{1}", "none"),
        ("@a", "AttributeStep(a)"),
    ];
    for i in 0..cases.len() {
        let (text, expected) = cases[i];
        let read = read_text(&rt, text);
        assert_eq!(rt; read.as_str(), expected);
        drop(read);
    }
}

#[test]
fn numbers_literals_and_comments(rt: HostRuntime) {
    let cases = [
        ("9223372036854775807", "Number(9223372036854775807)"),
        ("9223372036854775808", "none"),
        ("000000000000000000000000000001", "Number(1)"),
        ("'it''s'", "Literal('it's')"),
        ("\"a'b\"", "Literal('a'b')"),
        ("''", "Literal('')"),
        ("\"\"\"\"", "Literal('\"')"),
        ("'(:'", "Literal('(:')"),
        ("(: c (: d :) :) 1", "Number(1)"),
        ("1(::)", "Number(1)"),
        ("1 (: open", "none"),
        ("(:)1", "none"),
        ("'open", "none"),
        (
            "1 cast as xs:integer + 1",
            "Additive(Cast(Number(1) Op(SingleAtomicType(xs:integer))) Op(+ Number(1)))",
        ),
        ("1 treat as xs:integer + 1", "none"),
    ];
    for i in 0..cases.len() {
        let (text, expected) = cases[i];
        let read = read_text(&rt, text);
        assert_eq!(rt; read.as_str(), expected);
        drop(read);
    }
}

fn repeated(rt: &(impl Abort + AllocGlobal), front: &str, text: &str, times: usize) -> String {
    let mut out = String::new(rt.alloc());
    out.push_str(front).expect(rt, "memory");
    for _ in 0..times {
        out.push_str(text).expect(rt, "memory");
    }
    out
}

#[test]
fn large_texts(rt: HostRuntime) {
    let texts = [
        repeated(&rt, "", "1", 100_000),
        repeated(&rt, "", "(", 10_000),
        repeated(&rt, "1", "(:", 50_000),
        repeated(&rt, "'", "a", 100_000),
    ];
    for i in 0..texts.len() {
        let read = read_text(&rt, texts[i].as_str());
        assert_eq!(rt; read.as_str(), "none");
        drop(read);
    }
    drop(texts);
    let name = repeated(&rt, "", "a", 100_000);
    let read = read_text(&rt, name.as_str());
    assert_eq!(rt; read.len(), 100_010);
    drop(read);
    drop(name);
}
