// Names that are used and not declared.
use crate::told::{expr, name, text};
use name_rules::{Functions, VariableScope};
use sheet_expressions::sheet_names::{Names, broken_use, push_broken_uses, with_key};
use sheet_uses::{Use, push_expr_uses};
use std::alloc::AllocGlobal;
use std::process::Abort;
use xt_names::{Code, ExprName, List, SheetStaticCode};

fn named(rt: &(impl Abort + AllocGlobal), uri: &str, local: &str) -> ExprName {
    ExprName {
        uri: text(rt, uri),
        local: text(rt, local),
    }
}

// The variable x, the function mine with one parameter, the keys k and k of urn:u, and one template.
fn some_names(rt: &(impl Abort + AllocGlobal)) -> Names {
    let variables = VariableScope::new(rt.alloc()).expect(rt, "memory");
    let variables = variables.with(name(rt, "x")).expect(rt, "memory");
    let mut functions = Functions::new(rt.alloc());
    let mine = named(rt, "http://www.w3.org/2005/xpath-functions", "mine");
    let declared = functions.declare(&mine, 1).expect(rt, "memory");
    assert!(rt; declared, "the first of its name");
    drop(mine);
    let keys = VariableScope::new(rt.alloc()).expect(rt, "memory");
    let key = name(rt, "k");
    let keys = with_key(rt.alloc(), keys, &key).expect(rt, "memory");
    drop(key);
    let key = named(rt, "urn:u", "k");
    let keys = with_key(rt.alloc(), keys, &key).expect(rt, "memory");
    drop(key);
    Names {
        variables,
        functions,
        keys,
        templates: 1,
    }
}

fn codes_told(rt: &(impl Abort + AllocGlobal), codes: &List<Code>) -> String {
    let mut out = String::new(rt.alloc());
    for (place, code) in codes.as_slice().iter().enumerate() {
        if place > 0 {
            out.push_str(" ").expect(rt, "memory");
        }
        out.push_str(code.text()).expect(rt, "memory");
    }
    out
}

fn broken(rt: &(impl Abort + AllocGlobal), names: &Names, words: &str) -> String {
    let e = expr(rt, words);
    let scope = VariableScope::new(rt.alloc()).expect(rt, "memory");
    let mut found = List::new(rt.alloc());
    push_expr_uses(&e, &scope, &mut found).expect(rt, "memory");
    drop(scope);
    drop(e);
    let mut codes = List::new(rt.alloc());
    push_broken_uses(rt.alloc(), names, found.as_slice(), &mut codes).expect(rt, "memory");
    drop(found);
    let out = codes_told(rt, &codes);
    drop(codes);
    out
}

// Which case breaks something else.
fn wrong_case<'a>(
    rt: &(impl Abort + AllocGlobal),
    names: &Names,
    cases: &[(&'a str, &'a str)],
) -> &'a str {
    for (words, wanted) in cases {
        let found = broken(rt, names, words);
        let same = found.as_str() == *wanted;
        drop(found);
        if !same {
            return words;
        }
    }
    "none"
}

#[test]
fn names_that_are_not_declared(rt: HostRuntime) {
    let names = some_names(&rt);
    let cases = [
        ("$x", ""),
        ("$y", "XPST0008"),
        ("mine(1)", ""),
        ("mine()", "XPST0017"),
        ("mine(1, 2)", "XPST0017"),
        ("count($x)", ""),
        ("count()", "XPST0017"),
        ("doc('a')", ""),
        ("document('a')", ""),
        ("document('a', 'b')", "XPST0017"),
        ("current()/a", ""),
        ("current(1)", "XPST0017"),
        ("current-group()", ""),
        ("current-grouping-key()", ""),
        ("key('k', 1)", ""),
        ("key('{urn:u}k', 1)", ""),
        ("key('{urn:v}k', 1)", "XTDE1260"),
        ("key('j', $z)", "XTDE1260 XPST0008"),
        ("key('k')", "XPST0017"),
        (
            "for $a in $b return $a + none($c)",
            "XPST0008 XPST0017 XPST0008",
        ),
    ];
    let wrong = wrong_case(&rt, &names, &cases);
    assert_eq!(rt; wrong, "none");
    drop(names);
}

#[test]
fn templates_that_are_not_declared(rt: HostRuntime) {
    let names = some_names(&rt);
    let there = Use::Template(0, List::new(rt.alloc()));
    let none = Use::Template(1, List::new(rt.alloc()));
    let first = broken_use(rt.alloc(), &names, &there).expect(&rt, "memory");
    let second = broken_use(rt.alloc(), &names, &none).expect(&rt, "memory");
    drop(there);
    drop(none);
    drop(names);
    assert!(rt; first == None, "declared");
    assert!(rt;
        second == Some(Code::SheetStatic(SheetStaticCode::XTSE0650)),
        "not declared"
    );
}
