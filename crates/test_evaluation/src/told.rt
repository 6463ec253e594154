// What a query gives, as text.
use doc_reader::read;
use doc_set::DocSet;
use doc_writer::write_items_bare;
use eval_scopes::EvalFault;
use std::alloc::AllocGlobal;
use std::process::Abort;
use xdm_items::ItemList;
use xquery_eval::{Param, run_query, run_query_in};
use xquery_syntax::parse_query;
use xt_names::{List, Text};
use xt_syntax::Query;
use xt_tree::Tree;

pub fn put(rt: &(impl Abort + AllocGlobal), out: &mut String, text: &str) {
    out.push_str(text).expect(rt, "memory");
}

pub fn document(rt: &(impl Abort + AllocGlobal), text: &str) -> Tree {
    read(rt.alloc(), text.as_bytes()).expect(rt, "a document")
}

pub fn query(rt: &(impl Abort + AllocGlobal), text: &str) -> Query {
    parse_query(rt.alloc(), text).expect(rt, "a query")
}

// The items as the writer has them, or that they cannot be written.
fn put_items(rt: &(impl Abort + AllocGlobal), out: &mut String, items: ItemList) {
    let written = write_items_bare(rt.alloc(), &items);
    drop(items);
    match written {
        Ok(bytes) => match str::from_utf8(bytes.as_slice()) {
            Ok(text) => put(rt, out, text),
            Err(_) => put(rt, out, "no text"),
        },
        Err(_) => put(rt, out, "not written"),
    }
}

fn put_answer(
    rt: &(impl Abort + AllocGlobal),
    out: &mut String,
    answer: Result<ItemList, EvalFault>,
) {
    match answer {
        Ok(items) => put_items(rt, out, items),
        Err(EvalFault::Error(code)) => put(rt, out, code.text()),
        Err(EvalFault::Deep) => put(rt, out, "deep"),
        Err(EvalFault::Memory(_)) => put(rt, out, "memory"),
    }
}

// What a query gives at a document, with so many calls.
pub fn told(rt: &(impl Abort + AllocGlobal), text: &str, at: &str, depth: u32) -> String {
    let mut out = String::new(rt.alloc());
    let query = query(rt, text);
    let tree = document(rt, at);
    let none = List::new(rt.alloc());
    let answer = run_query(rt.alloc(), &query, &tree, &none, depth);
    put_answer(rt, &mut out, answer);
    drop(none);
    drop(tree);
    drop(query);
    out
}

fn param(rt: &(impl Abort + AllocGlobal), name: &str, value: &str) -> Param {
    let name = Text::make(rt.alloc(), name).expect(rt, "memory");
    let value = Text::make(rt.alloc(), value).expect(rt, "memory");
    Param { name, value }
}

// The same with a value for the variable `n` and a document of the name `e.xml`.
pub fn told_in(rt: &(impl Abort + AllocGlobal), text: &str, value: &str, other: &str) -> String {
    let mut out = String::new(rt.alloc());
    let query = query(rt, text);
    let tree = document(rt, "<a/>");
    let mut set = DocSet::new(rt.alloc());
    set.add("e.xml", document(rt, other)).expect(rt, "memory");
    let mut params = List::new(rt.alloc());
    params.push(param(rt, "n", value)).expect(rt, "memory");
    let answer = run_query_in(rt.alloc(), &query, &tree, &set, &params, 10);
    put_answer(rt, &mut out, answer);
    drop(params);
    drop(set);
    drop(tree);
    drop(query);
    out
}
