// What texts of stylesheets mean where they stand.
use bound_prefixes::BoundPrefixes;
use expr_names::ResolveFault;
use sheet_language::SheetLanguage;
use sheet_values::sheet_texts::{NameTable, Reader, StaticContext};
use std::alloc::AllocGlobal;
use std::process::Abort;
use xt_names::{Binding, List, Shared, Text};

fn text(rt: &(impl Abort + AllocGlobal), s: &str) -> Text {
    Text::make(rt.alloc(), s).expect(rt, "memory")
}

fn names(rt: &(impl Abort + AllocGlobal)) -> Shared<NameTable> {
    Shared::make(rt.alloc(), NameTable::new(rt.alloc())).expect(rt, "memory")
}

// Where `p` and `xs` are bound.
fn place(rt: &(impl Abort + AllocGlobal), in_group: bool) -> StaticContext {
    let mut bound = List::new(rt.alloc());
    for (prefix, uri) in [("p", "urn:p"), ("xs", "http://www.w3.org/2001/XMLSchema")] {
        let binding = Binding {
            prefix: text(rt, prefix),
            uri: text(rt, uri),
        };
        bound.push(binding).expect(rt, "memory");
    }
    StaticContext {
        bound: BoundPrefixes::new(bound).expect(rt, "memory"),
        in_group,
        modes: names(rt),
        called: names(rt),
    }
}

fn why(fault: ResolveFault) -> &'static str {
    match fault {
        ResolveFault::Static(code) => code.text(),
        ResolveFault::Memory(_) => "memory",
    }
}

// `value`, or the code of the rule that is broken.
fn expr_told(rt: &(impl Abort + AllocGlobal), place: &StaticContext, words: &str) -> &'static str {
    let language = SheetLanguage {};
    let words = text(rt, words);
    let found = language.expr(rt.alloc(), place, &words);
    drop(words);
    drop(language);
    match found {
        Err(fault) => why(fault),
        Ok(e) => {
            drop(e);
            "value"
        }
    }
}

fn patterns_told(
    rt: &(impl Abort + AllocGlobal),
    place: &StaticContext,
    words: &str,
) -> &'static str {
    let language = SheetLanguage {};
    let words = text(rt, words);
    let found = language.patterns(rt.alloc(), place, &words);
    drop(words);
    drop(language);
    match found {
        Err(fault) => why(fault),
        Ok(all) => {
            drop(all);
            "value"
        }
    }
}

fn type_told(rt: &(impl Abort + AllocGlobal), place: &StaticContext, words: &str) -> &'static str {
    let language = SheetLanguage {};
    let words = text(rt, words);
    let found = language.sequence_type(rt.alloc(), place, &words);
    drop(words);
    drop(language);
    match found {
        Err(fault) => why(fault),
        Ok(kind) => {
            drop(kind);
            "value"
        }
    }
}

#[test]
fn expressions(rt: HostRuntime) {
    let cases = [
        ("a (: b :) + 1", "value"),
        ("p:a[@p:b = 1]", "value"),
        ("a +", "XPST0003"),
        ("1 div 2", "XPST0003"),
        ("a \"", "XPST0003"),
        ("q:a", "XPST0081"),
        ("namespace::a", "XPST0010"),
        ("1 instance of xs:date", "XPST0051"),
        ("current-group()", "XTUN0001"),
        ("count(current-group())", "XTUN0001"),
        ("current-grouping-key() + q:a", "XTUN0001"),
        ("number(1)", "XTUN0001"),
        ("key('p:k', 1)", "value"),
        ("key($k, 1)", "XTUN0001"),
        ("key(('p:k'), 1)", "XTUN0001"),
        ("current-group() +", "XPST0003"),
    ];
    let here = place(&rt, false);
    for (words, wanted) in cases {
        assert_eq!(rt; expr_told(&rt, &here, words), wanted, "{words}");
    }
    drop(here);
}

#[test]
fn in_groups(rt: HostRuntime) {
    let cases = [
        ("current-group()", "value"),
        ("current-grouping-key() + 1", "value"),
        ("current-grouping-key() + q:a", "XPST0081"),
        ("number(current-group())", "XTUN0001"),
    ];
    let here = place(&rt, true);
    for (words, wanted) in cases {
        assert_eq!(rt; expr_told(&rt, &here, words), wanted, "{words}");
    }
    drop(here);
}

#[test]
fn how_deep(rt: HostRuntime) {
    let here = place(&rt, false);
    let mut words = String::new(rt.alloc());
    words.push_str("1").expect(&rt, "memory");
    for _ in 0..39 {
        words.push_str("+1").expect(&rt, "memory");
    }
    assert_eq!(rt; expr_told(&rt, &here, words.as_str()), "value");
    words.push_str("+1").expect(&rt, "memory");
    assert_eq!(rt; expr_told(&rt, &here, words.as_str()), "XTLM0004");
    words.push_str("+").expect(&rt, "memory");
    assert_eq!(rt; expr_told(&rt, &here, words.as_str()), "XPST0003");
    drop(words);
    drop(here);
}

#[test]
fn patterns(rt: HostRuntime) {
    let cases = [
        ("a|p:b[1]", "value"),
        ("/", "value"),
        ("a +", "XPST0003"),
        ("a union b", "XTSE0340"),
        ("a[$x]", "XTUN0001"),
        ("key('k', 'v')", "XTUN0001"),
        ("q:a", "XPST0081"),
    ];
    let here = place(&rt, false);
    for (words, wanted) in cases {
        assert_eq!(rt; patterns_told(&rt, &here, words), wanted, "{words}");
    }
    drop(here);
}

#[test]
fn types(rt: HostRuntime) {
    let cases = [
        ("element()*", "value"),
        ("xs:integer?", "value"),
        ("empty-sequence()", "value"),
        ("item(", "XPST0003"),
        ("1", "XPST0003"),
        ("xs:date", "XPST0051"),
        ("integer", "XPST0051"),
        ("q:t", "XPST0081"),
    ];
    let here = place(&rt, false);
    for (words, wanted) in cases {
        assert_eq!(rt; type_told(&rt, &here, words), wanted, "{words}");
    }
    drop(here);
}
