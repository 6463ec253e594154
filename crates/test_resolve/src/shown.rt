// An expression as a text: its form, and its parts in parentheses.
use crate::kids::kids_of;
use crate::labels::{put, put_label, put_type};
use crate::words::tokens_of;
use bound_prefixes::BoundPrefixes;
use expr_names::ResolveFault;
use expr_reader::{Reading, parse, parse_type};
use expr_resolve::{Setting, resolve, resolve_type};
use expr_terms::{Language, Raw};
use std::alloc::AllocGlobal;
use std::process::Abort;
use xpath_lex::tokens;
use xpath_syntax::parse_expr;
use xquery_syntax::parse_query;
use xt_names::{Binding, List, Text};
use xt_syntax::{Expr, ParseFault, Prefixes, Query, SeqType};

fn show(rt: &(impl Abort + AllocGlobal), out: &mut String, e: &Expr, depth: u8) {
    if depth == 0 {
        return;
    }
    put_label(rt, out, e);
    let kids = kids_of(rt, e);
    if kids.is_empty() {
        return;
    }
    put(rt, out, "(");
    for (place, kid) in kids.as_slice().iter().enumerate() {
        if place > 0 {
            put(rt, out, " ");
        }
        show(rt, out, kid.get(), depth - 1);
    }
    put(rt, out, ")");
    drop(kids);
}

fn put_fault(rt: &(impl Abort + AllocGlobal), out: &mut String, fault: ResolveFault) {
    match fault {
        ResolveFault::Static(code) => put(rt, out, code.text()),
        ResolveFault::Memory(_) => put(rt, out, "memory"),
    }
}

fn text(rt: &(impl Abort + AllocGlobal), s: &str) -> Text {
    Text::make(rt.alloc(), s).expect(rt, "memory")
}

fn bind(rt: &(impl Abort + AllocGlobal), bound: &mut List<Binding>, prefix: &str, uri: &str) {
    let binding = Binding {
        prefix: text(rt, prefix),
        uri: text(rt, uri),
    };
    bound.push(binding).expect(rt, "memory");
}

// `p` is bound to `u`, `none` to no uri; elements are in `e` and functions in `f`.
fn setting(rt: &(impl Abort + AllocGlobal), strip: bool) -> Setting {
    let mut bound = List::new(rt.alloc());
    bind(rt, &mut bound, "p", "u");
    bind(rt, &mut bound, "none", "");
    bind(rt, &mut bound, "xs", "http://www.w3.org/2001/XMLSchema");
    Setting {
        prefixes: Prefixes {
            bound: BoundPrefixes::new(bound).expect(rt, "memory"),
            element_default: text(rt, "e"),
            function_default: text(rt, "f"),
        },
        strip,
    }
}

fn put_meant(rt: &(impl Abort + AllocGlobal), out: &mut String, strip: bool, raw: &Raw) {
    let s = setting(rt, strip);
    let meant = resolve(rt.alloc(), &s, raw);
    drop(s);
    match meant {
        Err(fault) => put_fault(rt, out, fault),
        Ok(e) => {
            show(rt, out, &e, 100);
            drop(e);
        }
    }
}

// What the words of a query mean, with or without boundary white space, or the code.
pub(crate) fn meant(rt: &(impl Abort + AllocGlobal), strip: bool, words: &str) -> String {
    let tokens = tokens_of(rt, words);
    let reading = parse(rt.alloc(), Language::Xquery, tokens.as_slice(), 400).expect(rt, "memory");
    drop(tokens);
    let mut out = String::new(rt.alloc());
    match reading {
        Reading::Nothing => put(rt, &mut out, "none"),
        Reading::TooDeep => put(rt, &mut out, "deep"),
        Reading::Value(raw) => {
            put_meant(rt, &mut out, strip, &raw);
            drop(raw);
        }
    }
    out
}

fn put_type_meant(rt: &(impl Abort + AllocGlobal), out: &mut String, raw: &Raw) {
    let s = setting(rt, true);
    let meant: Result<SeqType, ResolveFault> = resolve_type(rt.alloc(), &s, raw);
    drop(s);
    match meant {
        Err(fault) => put_fault(rt, out, fault),
        Ok(kind) => put_type(rt, out, &kind),
    }
}

// What the words of a type mean, or the code.
pub(crate) fn type_meant(rt: &(impl Abort + AllocGlobal), words: &str) -> String {
    let tokens = tokens_of(rt, words);
    let reading = parse_type(rt.alloc(), Language::Xquery, tokens.as_slice(), 400).expect(
        rt, "memory",
    );
    drop(tokens);
    let mut out = String::new(rt.alloc());
    match reading {
        Reading::Nothing => put(rt, &mut out, "none"),
        Reading::TooDeep => put(rt, &mut out, "deep"),
        Reading::Value(raw) => {
            put_type_meant(rt, &mut out, &raw);
            drop(raw);
        }
    }
    out
}

// What a text of XPath is parsed to within the limit of nesting, or why it is none.
pub(crate) fn parsed(rt: &(impl Abort + AllocGlobal), text: &str, limit: u16) -> String {
    let mut out = String::new(rt.alloc());
    let s = setting(rt, true);
    match tokens(rt.alloc(), text) {
        Err(_) => put(rt, &mut out, "no tokens"),
        Ok(found) => {
            put_parsed(rt, &mut out, parse_expr(rt.alloc(), &found, &s, limit));
            drop(found);
        }
    }
    drop(s);
    out
}

fn put_parsed(rt: &(impl Abort + AllocGlobal), out: &mut String, parsed: Result<Expr, ParseFault>) {
    match parsed {
        Err(fault) => put_cause(rt, out, fault),
        Ok(e) => {
            show(rt, out, &e, 100);
            drop(e);
        }
    }
}

// What the body of a text of a query means, or why the text is none.
pub(crate) fn query_body(rt: &(impl Abort + AllocGlobal), text: &str) -> String {
    let mut out = String::new(rt.alloc());
    put_body(rt, &mut out, parse_query(rt.alloc(), text));
    out
}

fn put_body(rt: &(impl Abort + AllocGlobal), out: &mut String, parsed: Result<Query, ParseFault>) {
    match parsed {
        Err(fault) => put_cause(rt, out, fault),
        Ok(query) => {
            show(rt, out, &query.body, 100);
            drop(query);
        }
    }
}

fn put_cause(rt: &(impl Abort + AllocGlobal), out: &mut String, fault: ParseFault) {
    match fault {
        ParseFault::Syntax => put(rt, out, "syntax"),
        ParseFault::TooDeep => put(rt, out, "deep"),
        ParseFault::Static(code) => put(rt, out, code.text()),
        ParseFault::Memory(_) => put(rt, out, "memory"),
    }
}
