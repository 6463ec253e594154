// Which queries are closed.
use crate::made::{
    LOCAL, bare_name, call_1, direct, flwor, for_at, list_of, name_in, shared, text, two_of, var,
    with,
};
use closed_queries::query_closed;
use std::alloc::AllocGlobal;
use std::process::Abort;
use xt_names::{Binding, ExprName, List};
use xt_syntax::{Expr, NameSource, Query, QueryFunction, QueryParam, QueryVar};

fn query_of(
    rt: &(impl Abort + AllocGlobal),
    variables: List<QueryVar>,
    functions: List<QueryFunction>,
    body: Expr,
) -> Query {
    Query {
        prefixes: List::new(rt.alloc()),
        element_default: text(rt, ""),
        variables,
        functions,
        body,
        space: List::new(rt.alloc()),
        omit: false,
    }
}

fn is_closed(rt: &(impl Abort + AllocGlobal), query: Query) -> bool {
    let closed = query_closed(&query).expect(rt, "memory");
    drop(query);
    closed
}

// Whether the query of the body alone is closed.
fn alone(rt: &(impl Abort + AllocGlobal), body: Expr) -> bool {
    let query = query_of(rt, List::new(rt.alloc()), List::new(rt.alloc()), body);
    is_closed(rt, query)
}

// Whether the query of these variables and the body is closed.
fn under(rt: &(impl Abort + AllocGlobal), variables: List<QueryVar>, body: Expr) -> bool {
    let query = query_of(rt, variables, List::new(rt.alloc()), body);
    is_closed(rt, query)
}

// Whether the query of `$v` and these functions is closed.
fn beside(rt: &(impl Abort + AllocGlobal), functions: List<QueryFunction>, body: Expr) -> bool {
    let variables = list_of(rt, variable(rt, "v", Expr::Int(1)));
    let query = query_of(rt, variables, functions, body);
    is_closed(rt, query)
}

pub(crate) fn variable(rt: &(impl Abort + AllocGlobal), local: &str, value: Expr) -> QueryVar {
    QueryVar {
        name: name_in(rt, "", local),
        kind: None,
        value: Some(value),
    }
}

fn param(rt: &(impl Abort + AllocGlobal), local: &str) -> QueryParam {
    QueryParam {
        name: name_in(rt, "", local),
        kind: None,
    }
}

// a function of one parameter
pub(crate) fn function_of(
    rt: &(impl Abort + AllocGlobal),
    name: ExprName,
    first: &str,
    body: Expr,
) -> QueryFunction {
    QueryFunction {
        name,
        params: list_of(rt, param(rt, first)),
        kind: None,
        body,
    }
}

// `local:f` of two parameters
pub(crate) fn function_of_two(
    rt: &(impl Abort + AllocGlobal),
    first: &str,
    second: &str,
    body: Expr,
) -> QueryFunction {
    QueryFunction {
        name: name_in(rt, LOCAL, "f"),
        params: two_of(rt, param(rt, first), param(rt, second)),
        kind: None,
        body,
    }
}

// `local:f` of one parameter
fn function(rt: &(impl Abort + AllocGlobal), first: &str, body: Expr) -> QueryFunction {
    function_of(rt, name_in(rt, LOCAL, "f"), first, body)
}

#[test]
fn variables_are_declared(rt: HostRuntime) {
    assert!(rt; alone(&rt, Expr::Int(1)));
    assert!(rt; !alone(&rt, var(&rt, "v")));
    let all = list_of(&rt, variable(&rt, "v", Expr::Int(1)));
    assert!(rt; under(&rt, all, var(&rt, "v")));
    let all = list_of(&rt, variable(&rt, "v", var(&rt, "w")));
    assert!(rt; !under(&rt, all, Expr::Int(1)));
    let all = two_of(
        &rt,
        variable(&rt, "v", var(&rt, "w")),
        variable(&rt, "w", Expr::Int(1)),
    );
    assert!(rt; under(&rt, all, Expr::Int(1)));
    let all = two_of(
        &rt,
        variable(&rt, "v", Expr::Int(1)),
        variable(&rt, "v", Expr::Int(2)),
    );
    assert!(rt; !under(&rt, all, Expr::Int(1)));
}

#[test]
fn functions_are_declared(rt: HostRuntime) {
    assert!(rt; !alone(&rt, call_1(&rt, LOCAL, "f", Expr::Int(1))));
    let all = list_of(&rt, function(&rt, "a", var(&rt, "a")));
    assert!(rt; beside(&rt, all, call_1(&rt, LOCAL, "f", Expr::Int(1))));
    let all = list_of(&rt, function(&rt, "a", var(&rt, "v")));
    assert!(rt; beside(&rt, all, Expr::Int(1)));
    let all = list_of(&rt, function(&rt, "a", var(&rt, "b")));
    assert!(rt; !beside(&rt, all, Expr::Int(1)));
    let all = list_of(
        &rt,
        function(&rt, "a", call_1(&rt, LOCAL, "f", Expr::Int(1))),
    );
    assert!(rt; beside(&rt, all, Expr::Int(1)));
    let all = list_of(&rt, function(&rt, "a", Expr::Int(1)));
    assert!(rt; !beside(&rt, all, var(&rt, "a")));
}

#[test]
fn functions_and_parameters_differ(rt: HostRuntime) {
    let f = function(&rt, "a", Expr::Int(1));
    let all = two_of(&rt, f, function_of_two(&rt, "a", "b", Expr::Int(1)));
    assert!(rt; beside(&rt, all, Expr::Int(1)));
    let f = function(&rt, "a", Expr::Int(1));
    assert!(rt;
        !beside(
            &rt,
            two_of(&rt, f, function(&rt, "b", Expr::Int(2))),
            Expr::Int(1)
        )
    );
    let f = function_of_two(&rt, "a", "a", Expr::Int(1));
    assert!(rt; !beside(&rt, list_of(&rt, f), Expr::Int(1)));
}

#[test]
fn texts_and_names_are_allowed(rt: HostRuntime) {
    assert!(rt; alone(&rt, Expr::Str(text(&rt, "a"))));
    assert!(rt; !alone(&rt, Expr::Str(text(&rt, "\u{1}"))));
    assert!(rt; !alone(&rt, Expr::Int(-1)));
    assert!(rt; alone(&rt, direct(&rt, "k", Expr::Int(1), Expr::Int(2))));
    assert!(rt; !alone(&rt, direct(&rt, "xmlns", Expr::Int(1), Expr::Int(2))));
    let source = NameSource::Fixed(bare_name(&rt, "xmlns"));
    assert!(rt; alone(&rt, Expr::AttrC(source, shared(&rt, Expr::Int(1)))));
    let x = for_at(&rt, "x", "p", Expr::Int(1));
    assert!(rt; alone(&rt, flwor(&rt, list_of(&rt, x), Expr::Int(1))));
    let x = for_at(&rt, "x", "x", Expr::Int(1));
    assert!(rt; !alone(&rt, flwor(&rt, list_of(&rt, x), Expr::Int(1))));
}

// Whether a query that declares the prefix and has the default uri is closed.
fn declares(rt: &(impl Abort + AllocGlobal), prefix: &str, uri: &str, default: &str) -> bool {
    let body = Expr::Int(1);
    let query = query_of(rt, List::new(rt.alloc()), List::new(rt.alloc()), body);
    let binding = Binding {
        prefix: text(rt, prefix),
        uri: text(rt, uri),
    };
    let Query {
        prefixes,
        element_default,
        variables,
        functions,
        body,
        space,
        omit,
    } = query;
    drop(element_default);
    let changed = Query {
        prefixes: with(rt, prefixes, binding),
        element_default: text(rt, default),
        variables,
        functions,
        body,
        space,
        omit,
    };
    is_closed(rt, changed)
}

#[test]
fn no_namespace_of_xml_is_declared(rt: HostRuntime) {
    assert!(rt; declares(&rt, "p", "urn:p", "urn:d"));
    assert!(rt; !declares(&rt, "xml", "urn:p", "urn:d"));
    assert!(rt; !declares(&rt, "xmlns", "urn:p", "urn:d"));
    assert!(rt; !declares(&rt, "p", "http://www.w3.org/XML/1998/namespace", "urn:d"));
    assert!(rt; !declares(&rt, "p", "http://www.w3.org/2000/xmlns/", "urn:d"));
    assert!(rt; !declares(&rt, "p", "urn:p", "http://www.w3.org/XML/1998/namespace"));
    assert!(rt; !declares(&rt, "p", "urn:p", "http://www.w3.org/2000/xmlns/"));
}
