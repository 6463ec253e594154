// What is read as words: each declaration, and the outermost form of the body. Each helper ends the
// test where memory runs out.
use expr_terms::{Production, Raw, Token};
use query_grammar::{Declared, RawQuery};
use query_texts::{QueryReading, read_query};
use std::alloc::AllocGlobal;
use std::process::Abort;

pub(crate) const LIMIT: u16 = 400;

pub(crate) fn put(rt: &(impl Abort + AllocGlobal), out: &mut String, text: &str) {
    out.push_str(text).expect(rt, "memory");
}

// the text so many times
pub(crate) fn repeated(rt: &(impl Abort + AllocGlobal), text: &str, times: usize) -> String {
    let mut out = String::new(rt.alloc());
    for _ in 0..times {
        put(rt, &mut out, text);
    }
    out
}

fn put_name(rt: &(impl Abort + AllocGlobal), out: &mut String, name: &Token) {
    match name {
        Token::Name(local) => put(rt, out, local.as_str()),
        Token::Qname(prefix, local) => {
            put(rt, out, prefix.as_str());
            put(rt, out, ":");
            put(rt, out, local.as_str());
        }
        _ => put(rt, out, "?"),
    }
}

fn put_text(rt: &(impl Abort + AllocGlobal), out: &mut String, word: &str, text: &str) {
    put(rt, out, word);
    put(rt, out, "(");
    put(rt, out, text);
    put(rt, out, ") ");
}

fn put_named(rt: &(impl Abort + AllocGlobal), out: &mut String, word: &str, name: &Token, s: &str) {
    put(rt, out, word);
    put(rt, out, "(");
    put_name(rt, out, name);
    put(rt, out, s);
    put(rt, out, ") ");
}

fn put_declared(rt: &(impl Abort + AllocGlobal), out: &mut String, declared: &Declared) {
    match declared {
        Declared::Version(text) => put_text(rt, out, "version", text.as_str()),
        Declared::Namespace(prefix, uri) => {
            put_named(rt, out, "namespace", prefix, " ");
            put_text(rt, out, "to", uri.as_str());
        }
        Declared::ElementDefault(uri) => put_text(rt, out, "elements", uri.as_str()),
        Declared::FunctionDefault(uri) => put_text(rt, out, "functions", uri.as_str()),
        Declared::BoundarySpace(true) => put(rt, out, "preserve "),
        Declared::BoundarySpace(false) => put(rt, out, "strip "),
        Declared::Setter => put(rt, out, "setter "),
        Declared::Setting(name, text) => {
            put_named(rt, out, "option", name, "");
            put_text(rt, out, "to", text.as_str());
        }
        Declared::Variable(typed, None) => put_named(rt, out, "external", &typed.name, ""),
        Declared::Variable(typed, Some(_)) => put_named(rt, out, "variable", &typed.name, ""),
        Declared::Function(name, params, _, _) => {
            let count = params.len();
            put_named(
                rt,
                out,
                "function",
                name,
                if count == 0 { "" } else { " .." },
            );
        }
    }
}

fn form_of(body: &Raw) -> &'static str {
    match body {
        Raw::Leaf(_) => "leaf",
        Raw::Node(production, _) => match production {
            Production::Number => "number",
            Production::Variable => "reference",
            Production::OperatorChain(_) => "operators",
            Production::Parens => "parens",
            Production::ExprList => "list",
            Production::Call => "call",
            Production::DirectElement => "element",
            Production::Rooted => "root",
            Production::RootSteps => "steps from the root",
            Production::RootedDeep => "deep steps from the root",
            Production::Steps => "steps",
            Production::TestStep => "step",
            _ => "other",
        },
    }
}

fn put_query(rt: &(impl Abort + AllocGlobal), out: &mut String, query: &RawQuery) {
    for declared in query.declared.as_slice() {
        put_declared(rt, out, declared);
    }
    put(rt, out, form_of(&query.body));
}

pub(crate) fn read(rt: &(impl Abort + AllocGlobal), text: &str) -> String {
    let mut out = String::new(rt.alloc());
    match read_query(rt.alloc(), text, LIMIT).expect(rt, "memory") {
        QueryReading::Nothing => put(rt, &mut out, "Nothing"),
        QueryReading::TooDeep => put(rt, &mut out, "TooDeep"),
        QueryReading::Value(query) => {
            put_query(rt, &mut out, &query);
            drop(query);
        }
    }
    out
}
