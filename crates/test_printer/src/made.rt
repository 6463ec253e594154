// Queries that no text gives, made for a test.
use crate::texts::{made, text_of};
use std::alloc::AllocGlobal;
use std::process::Abort;
use xt_names::{AtomType, ExprName, List, Name, Shared};
use xt_syntax::{Arm, Bind, Clause, DirectAttr, Expr, Flwor, Part, Query};
use xt_types::{Axis, NameTest, Test};

const LOCAL: &str = "http://www.w3.org/2005/xquery-local-functions";

const TYPES: &str = "http://www.w3.org/2001/XMLSchema";

fn shared<T: Drop>(rt: &(impl Abort + AllocGlobal), value: T) -> Shared<T> {
    Shared::make(rt.alloc(), value).expect(rt, "memory")
}

fn none<T: Drop>(rt: &(impl Abort + AllocGlobal)) -> Shared<List<T>> {
    shared(rt, List::new(rt.alloc()))
}

fn one<T: Drop>(rt: &(impl Abort + AllocGlobal), item: T) -> Shared<List<T>> {
    let mut items = List::new(rt.alloc());
    items.push(item).expect(rt, "memory");
    shared(rt, items)
}

fn two<T: Drop>(rt: &(impl Abort + AllocGlobal), first: T, second: T) -> Shared<List<T>> {
    let mut items = List::new(rt.alloc());
    items.push(first).expect(rt, "memory");
    items.push(second).expect(rt, "memory");
    shared(rt, items)
}

fn name_in(rt: &(impl Abort + AllocGlobal), uri: &str, local: &str) -> ExprName {
    ExprName {
        uri: made(rt, uri),
        local: made(rt, local),
    }
}

fn bare_name(rt: &(impl Abort + AllocGlobal), local: &str) -> Name {
    Name {
        prefix: made(rt, ""),
        uri: made(rt, ""),
        local: made(rt, local),
    }
}

// whether a query with this body alone can be printed
fn can(rt: &(impl Abort + AllocGlobal), body: Expr) -> bool {
    let query = Query {
        prefixes: List::new(rt.alloc()),
        element_default: made(rt, ""),
        variables: List::new(rt.alloc()),
        functions: List::new(rt.alloc()),
        body,
        space: List::new(rt.alloc()),
        omit: false,
    };
    let text = text_of(rt, &query);
    let can = text.as_str() != "no";
    drop(text);
    drop(query);
    can
}

fn conditional(rt: &(impl Abort + AllocGlobal), other: Expr) -> Expr {
    let arm = Arm {
        test: shared(rt, Expr::Context),
        then: shared(rt, Expr::Context),
    };
    Expr::If(one(rt, arm), shared(rt, other))
}

fn bound(rt: &(impl Abort + AllocGlobal), local: &str) -> Bind {
    Bind {
        var: name_in(rt, "", local),
        kind: None,
        source: shared(rt, Expr::Context),
    }
}

fn flow(rt: &(impl Abort + AllocGlobal), clauses: Shared<List<Clause>>, stable: bool) -> Expr {
    Expr::Flwor(Flwor {
        clauses,
        test: None,
        orders: none(rt),
        stable,
        body: shared(rt, Expr::Context),
    })
}

fn direct(
    rt: &(impl Abort + AllocGlobal),
    attrs: Shared<List<DirectAttr>>,
    parts: Shared<List<Part>>,
) -> Expr {
    Expr::Direct(bare_name(rt, "a"), attrs, parts)
}

fn characters(rt: &(impl Abort + AllocGlobal), text: &str) -> Part {
    Part::Chars(made(rt, text))
}

fn attribute(rt: &(impl Abort + AllocGlobal), local: &str) -> DirectAttr {
    DirectAttr {
        name: bare_name(rt, local),
        parts: none(rt),
    }
}

#[test]
fn lists(rt: HostRuntime) {
    assert!(rt; can(&rt, Expr::Int(0)) && !can(&rt, Expr::Int(-1)));
    assert!(rt; can(&rt, Expr::Comma(none(&rt))));
    assert!(rt; !can(&rt, Expr::Comma(one(&rt, Expr::Context))));
    assert!(rt; can(&rt, Expr::Or(two(&rt, Expr::Context, Expr::Root))));
    assert!(rt; !can(&rt, Expr::Or(one(&rt, Expr::Context))));
    assert!(rt; !can(&rt, Expr::And(none(&rt))));
    assert!(rt; !can(&rt, Expr::Filter(shared(&rt, Expr::Context), none(&rt))));
    assert!(rt; can(&rt, conditional(&rt, Expr::Context)));
    assert!(rt; !can(&rt, conditional(&rt, conditional(&rt, Expr::Context))));
    assert!(rt; !can(&rt, Expr::If(none(&rt), shared(&rt, Expr::Context))));
    assert!(rt;
        !can(
            &rt,
            Expr::Quant(true, none(&rt), shared(&rt, Expr::Context))
        )
    );
}

#[test]
fn bindings(rt: HostRuntime) {
    assert!(rt; !can(&rt, flow(&rt, none(&rt), false)));
    let clauses = one(&rt, Clause::Let(bound(&rt, "a")));
    assert!(rt; can(&rt, flow(&rt, clauses, false)));
    let clauses = one(&rt, Clause::Let(bound(&rt, "a")));
    assert!(rt; !can(&rt, flow(&rt, clauses, true)));
    let clause = Clause::For(bound(&rt, "a"), Some(name_in(&rt, "", "b")));
    assert!(rt; can(&rt, flow(&rt, one(&rt, clause), false)));
    let clause = Clause::For(bound(&rt, "a"), Some(name_in(&rt, "", "a")));
    assert!(rt; !can(&rt, flow(&rt, one(&rt, clause), false)));
    let clause = Clause::For(bound(&rt, "a"), Some(name_in(&rt, "urn:b", "b")));
    assert!(rt; !can(&rt, flow(&rt, one(&rt, clause), false)));
}

#[test]
fn names(rt: HostRuntime) {
    assert!(rt; !can(&rt, Expr::Var(name_in(&rt, "", "a"))));
    assert!(rt; !can(&rt, Expr::Call(name_in(&rt, LOCAL, "f"), none(&rt))));
    let kind = name_in(&rt, TYPES, "integer");
    assert!(rt; !can(&rt, Expr::Call(kind, one(&rt, Expr::Context))));
    let test = Test::Named(NameTest::Local(made(&rt, "a")));
    assert!(rt; can(&rt, Expr::Step(Axis::Child, test, none(&rt))));
    let test = Test::Named(NameTest::Local(made(&rt, "1")));
    assert!(rt; !can(&rt, Expr::Step(Axis::Child, test, none(&rt))));
    let test = Test::Named(NameTest::Uri(made(&rt, "urn:a")));
    assert!(rt; !can(&rt, Expr::Step(Axis::Child, test, none(&rt))));
    let cast = Expr::Cast(shared(&rt, Expr::Context), AtomType::QName, false);
    assert!(rt; !can(&rt, cast));
    assert!(rt; !can(&rt, Expr::Str(made(&rt, "\u{1}"))));
}

#[test]
fn elements(rt: HostRuntime) {
    let parts = one(&rt, characters(&rt, "x"));
    assert!(rt; can(&rt, direct(&rt, none(&rt), parts)));
    let parts = two(&rt, characters(&rt, "x"), characters(&rt, "y"));
    assert!(rt; !can(&rt, direct(&rt, none(&rt), parts)));
    let parts = one(&rt, characters(&rt, ""));
    assert!(rt; !can(&rt, direct(&rt, none(&rt), parts)));
    let parts = one(&rt, Part::Child(shared(&rt, Expr::Context)));
    assert!(rt; !can(&rt, direct(&rt, none(&rt), parts)));
    let attrs = two(&rt, attribute(&rt, "b"), attribute(&rt, "c"));
    assert!(rt; can(&rt, direct(&rt, attrs, none(&rt))));
    let attrs = two(&rt, attribute(&rt, "b"), attribute(&rt, "b"));
    assert!(rt; !can(&rt, direct(&rt, attrs, none(&rt))));
    let attrs = one(&rt, attribute(&rt, "xmlns"));
    assert!(rt; !can(&rt, direct(&rt, attrs, none(&rt))));
}

// so many signs before the context item
fn signed(rt: &(impl Abort + AllocGlobal), signs: u32) -> Expr {
    let mut e = Expr::Context;
    for _ in 0..signs {
        e = Expr::Minus(shared(rt, e));
    }
    e
}

// 400 levels are printed, 401 are not
#[test]
fn levels(rt: HostRuntime) {
    assert!(rt; can(&rt, signed(&rt, 399)));
    assert!(rt; !can(&rt, signed(&rt, 400)));
    assert!(rt; !can(&rt, signed(&rt, 450)));
}
