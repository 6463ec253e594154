// Copies of lists of patterns, queries and their parts.
use crate::made::{list_of, name, text};
use bound_prefixes::BoundPrefixes;
use std::alloc::AllocGlobal;
use std::process::Abort;
use xt_names::List;
use xt_syntax::{
    Axis, Expr, Pattern, PatternStep, Prefixes, Query, QueryFunction, QueryParam, QueryVar, Test,
    copy_pattern_list, copy_pattern_step_list, copy_prefixes_list, copy_query_function_list,
    copy_query_list, copy_query_param_list, copy_query_var_list,
};

fn is_deep_text(step: &PatternStep) -> bool {
    step.deep && step.quiet.is_empty() && matches!(step.test, Test::Text)
}

#[test]
fn steps_of_patterns_are_copied(rt: HostRuntime) {
    let step = PatternStep {
        axis: Axis::Child,
        test: Test::Text,
        quiet: List::new(rt.alloc()),
        deep: true,
    };
    let items = list_of(&rt, step);
    let copy = copy_pattern_step_list(&items).expect(&rt, "memory");
    drop(items);
    assert!(rt; matches!(copy.as_slice(), [only] if is_deep_text(only)));
    drop(copy);
}

#[test]
fn patterns_are_copied(rt: HostRuntime) {
    let pattern = Pattern {
        rooted: true,
        steps: List::new(rt.alloc()),
    };
    let items = list_of(&rt, pattern);
    let copy = copy_pattern_list(&items).expect(&rt, "memory");
    drop(items);
    assert!(rt; matches!(copy.as_slice(), [only] if only.rooted && only.steps.is_empty()));
    drop(copy);
}

fn query(rt: &(impl Abort + AllocGlobal)) -> Query {
    Query {
        prefixes: List::new(rt.alloc()),
        element_default: text(rt, "u"),
        variables: List::new(rt.alloc()),
        functions: List::new(rt.alloc()),
        body: Expr::Context,
        space: List::new(rt.alloc()),
        omit: true,
    }
}

fn is_query(query: &Query) -> bool {
    query.omit && query.element_default.is("u") && matches!(query.body, Expr::Context)
}

#[test]
fn a_query_is_copied(rt: HostRuntime) {
    let made = query(&rt);
    let copy = made.copy().expect(&rt, "memory");
    drop(made);
    assert!(rt; is_query(&copy));
    drop(copy);
}

#[test]
fn queries_are_copied(rt: HostRuntime) {
    let items = list_of(&rt, query(&rt));
    let copy = copy_query_list(&items).expect(&rt, "memory");
    drop(items);
    assert!(rt; matches!(copy.as_slice(), [only] if is_query(only)));
    drop(copy);
}

fn is_external(variable: &QueryVar) -> bool {
    variable.name.local.is("v") && variable.value.is_none()
}

#[test]
fn variables_of_queries_are_copied(rt: HostRuntime) {
    let variable = QueryVar {
        name: name(&rt, "v"),
        kind: None,
        value: None,
    };
    let items = list_of(&rt, variable);
    let copy = copy_query_var_list(&items).expect(&rt, "memory");
    drop(items);
    assert!(rt; matches!(copy.as_slice(), [only] if is_external(only)));
    drop(copy);
}

fn parameter(rt: &(impl Abort + AllocGlobal)) -> QueryParam {
    QueryParam {
        name: name(rt, "p"),
        kind: None,
    }
}

#[test]
fn parameters_of_functions_are_copied(rt: HostRuntime) {
    let items = list_of(&rt, parameter(&rt));
    let copy = copy_query_param_list(&items).expect(&rt, "memory");
    drop(items);
    assert!(rt; matches!(copy.as_slice(), [only] if only.name.local.is("p")));
    drop(copy);
}

fn function(rt: &(impl Abort + AllocGlobal)) -> QueryFunction {
    QueryFunction {
        name: name(rt, "f"),
        params: list_of(rt, parameter(rt)),
        kind: None,
        body: Expr::Root,
    }
}

fn is_function(function: &QueryFunction) -> bool {
    function.name.local.is("f") && function.params.len() == 1 && matches!(function.body, Expr::Root)
}

#[test]
fn functions_of_queries_are_copied(rt: HostRuntime) {
    let items = list_of(&rt, function(&rt));
    let copy = copy_query_function_list(&items).expect(&rt, "memory");
    drop(items);
    assert!(rt; matches!(copy.as_slice(), [only] if is_function(only)));
    drop(copy);
}

fn are_prefixes(prefixes: &Prefixes) -> bool {
    prefixes.element_default.is("u") && prefixes.function_default.is("f")
}

#[test]
fn prefixes_are_copied(rt: HostRuntime) {
    let prefixes = Prefixes {
        bound: BoundPrefixes::new(List::new(rt.alloc())).expect(&rt, "memory"),
        element_default: text(&rt, "u"),
        function_default: text(&rt, "f"),
    };
    let items = list_of(&rt, prefixes);
    let copy = copy_prefixes_list(&items).expect(&rt, "memory");
    drop(items);
    assert!(rt; matches!(copy.as_slice(), [only] if are_prefixes(only)));
    drop(copy);
}
