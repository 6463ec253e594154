// A query as a text.
use crate::reads::query_in;
use closed_queries::query_closed;
use expr_names::ResolveFault;
use query_resolve::resolve_query;
use std::alloc::AllocGlobal;
use std::process::Abort;
use xt_names::ExprName;
use xt_syntax::{NameTest, Query, QueryFunction, QueryVar, SpaceRule};

fn put(rt: &(impl Abort + AllocGlobal), out: &mut String, text: &str) {
    out.push_str(text).expect(rt, "memory");
}

fn put_name(rt: &(impl Abort + AllocGlobal), out: &mut String, name: &ExprName) {
    if !name.uri.is_empty() {
        put(rt, out, "{");
        put(rt, out, name.uri.as_str());
        put(rt, out, "}");
    }
    put(rt, out, name.local.as_str());
}

fn put_variable(rt: &(impl Abort + AllocGlobal), out: &mut String, variable: &QueryVar) {
    put(rt, out, " $");
    put_name(rt, out, &variable.name);
    if variable.kind.is_some() {
        put(rt, out, " typed");
    }
    if variable.value.is_none() {
        put(rt, out, " external");
    }
}

fn put_function(rt: &(impl Abort + AllocGlobal), out: &mut String, function: &QueryFunction) {
    put(rt, out, " ");
    put_name(rt, out, &function.name);
    put(rt, out, "(");
    for param in function.params.as_slice() {
        put(rt, out, "$");
        put_name(rt, out, &param.name);
    }
    put(rt, out, ")");
    if function.kind.is_some() {
        put(rt, out, " typed");
    }
}

fn put_test(rt: &(impl Abort + AllocGlobal), out: &mut String, test: &NameTest) {
    match test {
        NameTest::Any => put(rt, out, "*"),
        NameTest::Uri(uri) => {
            put(rt, out, uri.as_str());
            put(rt, out, ":*");
        }
        NameTest::Local(local) => {
            put(rt, out, "*:");
            put(rt, out, local.as_str());
        }
        NameTest::Exact(name) => put_name(rt, out, name),
    }
}

fn put_rule(rt: &(impl Abort + AllocGlobal), out: &mut String, rule: &SpaceRule) {
    if rule.strip {
        put(rt, out, " strip ");
    } else {
        put(rt, out, " preserve ");
    }
    put_test(rt, out, &rule.test);
}

fn put_query(rt: &(impl Abort + AllocGlobal), out: &mut String, query: &Query) {
    put(rt, out, "query");
    for binding in query.prefixes.as_slice() {
        put(rt, out, " ");
        put(rt, out, binding.prefix.as_str());
        put(rt, out, "=");
        put(rt, out, binding.uri.as_str());
    }
    if !query.element_default.is_empty() {
        put(rt, out, " default=");
        put(rt, out, query.element_default.as_str());
    }
    for variable in query.variables.as_slice() {
        put_variable(rt, out, variable);
    }
    for function in query.functions.as_slice() {
        put_function(rt, out, function);
    }
    for rule in query.space.as_slice() {
        put_rule(rt, out, rule);
    }
    if query.omit {
        put(rt, out, " omit");
    }
}

// What is made of a text: the query, which is closed, or the code.
pub(crate) fn told(rt: &(impl Abort + AllocGlobal), text: &str) -> String {
    let raw = query_in(rt, text);
    let found = resolve_query(rt.alloc(), &raw);
    drop(raw);
    let mut out = String::new(rt.alloc());
    match found {
        Err(ResolveFault::Static(code)) => put(rt, &mut out, code.text()),
        Err(ResolveFault::Memory(_)) => put(rt, &mut out, "memory"),
        Ok(query) => {
            assert!(rt; query_closed(&query).expect(rt, "memory"));
            put_query(rt, &mut out, &query);
            drop(query);
        }
    }
    out
}
