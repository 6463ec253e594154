// Which rules a prolog breaks.
use crate::closed::{function_of, function_of_two, variable};
use crate::made::{FN, LOCAL, call_1, list_of, name_in, text, two_of, var};
use closed_queries::prolog_rules::{Declaration, Setter, broken_query, broken_setter};
use std::alloc::AllocGlobal;
use std::process::Abort;
use xt_names::{Binding, Code, List, QueryStaticCode};
use xt_syntax::{Expr, QueryFunction};

// What is told of a query, 0 for nothing.
fn told(rt: &(impl Abort + AllocGlobal), declarations: List<Declaration>, body: Expr) -> u8 {
    let fault = broken_query(&declarations, &body).expect(rt, "memory");
    drop(declarations);
    drop(body);
    number(fault)
}

// What is told of setters, 0 for nothing.
fn told_of(rt: &(impl Abort + AllocGlobal), setters: List<Setter>) -> u8 {
    let fault = broken_setter(rt.alloc(), setters.as_slice()).expect(rt, "memory");
    drop(setters);
    number(fault)
}

// The number in the code's name.
fn number(fault: Option<Code>) -> u8 {
    match fault {
        None => 0,
        Some(Code::QueryStatic(code)) => static_number(code),
        Some(_) => 99,
    }
}

fn static_number(code: QueryStaticCode) -> u8 {
    match code {
        QueryStaticCode::XPST0008 => 8,
        QueryStaticCode::XPST0017 => 17,
        QueryStaticCode::XQST0033 => 33,
        QueryStaticCode::XQST0034 => 34,
        QueryStaticCode::XQST0039 => 39,
        QueryStaticCode::XQST0045 => 45,
        QueryStaticCode::XQST0049 => 49,
        QueryStaticCode::XQST0060 => 60,
        QueryStaticCode::XQST0066 => 66,
        QueryStaticCode::XQST0068 => 68,
        QueryStaticCode::XQST0070 => 70,
        _ => 99,
    }
}

fn declared(rt: &(impl Abort + AllocGlobal), local: &str, value: Expr) -> Declaration {
    Declaration::Variable(variable(rt, local, value))
}

// `local:NAME($a) { body }`
fn defined(rt: &(impl Abort + AllocGlobal), local: &str, body: Expr) -> Declaration {
    Declaration::Function(function_of(rt, name_in(rt, LOCAL, local), "a", body))
}

// What is told of a query that declares this function alone.
fn told_alone(rt: &(impl Abort + AllocGlobal), function: QueryFunction) -> u8 {
    told(
        rt,
        list_of(rt, Declaration::Function(function)),
        Expr::Int(1),
    )
}

#[test]
fn a_variable_is_in_scope_behind_its_declaration(rt: HostRuntime) {
    let ds = two_of(
        &rt,
        declared(&rt, "x", Expr::Int(1)),
        declared(&rt, "y", var(&rt, "x")),
    );
    assert_eq!(rt; told(&rt, ds, var(&rt, "y")), 0);
    let ds = two_of(
        &rt,
        declared(&rt, "x", var(&rt, "y")),
        declared(&rt, "y", Expr::Int(1)),
    );
    assert_eq!(rt; told(&rt, ds, Expr::Int(2)), 8);
    let ds = two_of(
        &rt,
        declared(&rt, "x", Expr::Int(1)),
        declared(&rt, "x", Expr::Int(2)),
    );
    assert_eq!(rt; told(&rt, ds, Expr::Int(3)), 49);
    let ds = two_of(
        &rt,
        defined(&rt, "f", var(&rt, "x")),
        declared(&rt, "x", Expr::Int(2)),
    );
    assert_eq!(rt; told(&rt, ds, Expr::Int(3)), 8);
    let ds = two_of(
        &rt,
        declared(&rt, "x", Expr::Int(2)),
        defined(&rt, "f", var(&rt, "x")),
    );
    assert_eq!(rt; told(&rt, ds, var(&rt, "a")), 8);
}

#[test]
fn functions_may_be_called_before_theirs(rt: HostRuntime) {
    let early = defined(&rt, "f", call_1(&rt, LOCAL, "g", var(&rt, "a")));
    let ds = two_of(&rt, early, defined(&rt, "g", Expr::Int(1)));
    assert_eq!(rt; told(&rt, ds, call_1(&rt, LOCAL, "f", Expr::Int(1))), 0);
    let ds = list_of(
        &rt,
        defined(&rt, "f", call_1(&rt, LOCAL, "g", var(&rt, "a"))),
    );
    assert_eq!(rt; told(&rt, ds, Expr::Int(1)), 17);
    let ds = two_of(
        &rt,
        defined(&rt, "f", Expr::Int(1)),
        defined(&rt, "f", Expr::Int(2)),
    );
    assert_eq!(rt; told(&rt, ds, Expr::Int(1)), 34);
}

#[test]
fn functions_have_a_namespace_of_their_own(rt: HostRuntime) {
    let f = function_of(&rt, name_in(&rt, "", "f"), "a", Expr::Int(1));
    assert_eq!(rt; told_alone(&rt, f), 60);
    let f = function_of(&rt, name_in(&rt, FN, "f"), "a", Expr::Int(1));
    assert_eq!(rt; told_alone(&rt, f), 45);
    let f = function_of(&rt, name_in(&rt, "urn:f", "f"), "a", Expr::Int(1));
    assert_eq!(rt; told_alone(&rt, f), 0);
    let f = function_of_two(&rt, "a", "a", var(&rt, "x"));
    assert_eq!(rt; told_alone(&rt, f), 39);
    let f = function_of_two(&rt, "a", "b", var(&rt, "x"));
    assert_eq!(rt; told_alone(&rt, f), 8);
}

fn namespace(rt: &(impl Abort + AllocGlobal), prefix: &str, uri: &str) -> Setter {
    Setter::Namespace(Binding {
        prefix: text(rt, prefix),
        uri: text(rt, uri),
    })
}

#[test]
fn namespaces_are_declared_once(rt: HostRuntime) {
    let all = two_of(
        &rt,
        namespace(&rt, "p", "urn:p"),
        namespace(&rt, "q", "urn:p"),
    );
    assert_eq!(rt; told_of(&rt, all), 0);
    let all = two_of(
        &rt,
        namespace(&rt, "p", "urn:p"),
        namespace(&rt, "p", "urn:q"),
    );
    assert_eq!(rt; told_of(&rt, all), 33);
    let all = list_of(
        &rt,
        namespace(&rt, "xml", "http://www.w3.org/XML/1998/namespace"),
    );
    assert_eq!(rt; told_of(&rt, all), 70);
    let all = list_of(&rt, namespace(&rt, "p", "http://www.w3.org/2000/xmlns/"));
    assert_eq!(rt; told_of(&rt, all), 70);
    let all = list_of(&rt, namespace(&rt, "fn", "urn:mine"));
    assert_eq!(rt; told_of(&rt, all), 0);
}

#[test]
fn setters_stand_once(rt: HostRuntime) {
    let first = Setter::ElementDefault(text(&rt, "urn:a"));
    let all = two_of(&rt, first, Setter::FunctionDefault(text(&rt, "urn:a")));
    assert_eq!(rt; told_of(&rt, all), 0);
    let first = Setter::ElementDefault(text(&rt, "urn:a"));
    let all = two_of(&rt, first, Setter::ElementDefault(text(&rt, "urn:a")));
    assert_eq!(rt; told_of(&rt, all), 66);
    let first = Setter::FunctionDefault(text(&rt, "urn:a"));
    let all = two_of(&rt, first, Setter::FunctionDefault(text(&rt, "urn:b")));
    assert_eq!(rt; told_of(&rt, all), 66);
    let all = two_of(
        &rt,
        Setter::BoundarySpace(true),
        Setter::BoundarySpace(true),
    );
    assert_eq!(rt; told_of(&rt, all), 68);
    assert_eq!(rt; told_of(&rt, two_of(&rt, Setter::Other, Setter::Other)), 0);
    let kept = text(&rt, "http://www.w3.org/XML/1998/namespace");
    assert_eq!(rt;
        told_of(&rt, list_of(&rt, Setter::ElementDefault(kept))),
        70
    );
}
