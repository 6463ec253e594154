// The calls of which no table of operators is made (XPath 2.0, 2.4 and 3.3.1; XQuery 1.0, 3.7 and
// 3.8.3).
use crate::made::{list_of, name, text, with, with_item};
use crate::written::{items_of, printed, put, put_place};
use eval_calls as calls;
use eval_calls::Called;
use eval_nodes as nodes;
use eval_scopes::{Focus, eval_values as values};
use operator_values as operators;
use order_group::KeyRow;
use std::alloc::AllocGlobal;
use std::process::Abort;
use xdm_items::{Item, ItemList};
use xt_atoms::{Atom, ValueFault};
use xt_names::{Code, DynamicCode, ExprName, List, Name, Text};
use xt_tree::Tree;

const WRONG_TYPE: Code = Code::Dynamic(DynamicCode::XPTY0004);

fn appended(rt: &(impl Abort + AllocGlobal), first: &str, second: &str) -> String {
    let both = values::append(items_of(rt, first), items_of(rt, second));
    printed(rt, Ok(both.expect(rt, "memory")))
}

#[test]
fn lists_one_behind_the_other(rt: HostRuntime) {
    let cases = [
        ("i:1,i:2", "s:a,i:1", "i:1,i:2,s:a,i:1"),
        ("i:1", "", "i:1"),
        ("", "n:b", "n:/03"),
        ("", "", ""),
    ];
    for (first, second, wanted) in cases {
        let found = appended(&rt, first, second);
        assert_eq!(rt; found.as_str(), wanted, "{first};{second}");
        drop(found);
    }
}

fn typed_value(rt: &(impl Abort + AllocGlobal), item: &Item) -> Item {
    Item::Atom(operators::atom_of(rt.alloc(), item).expect(rt, "memory"))
}

fn typed_values(rt: &(impl Abort + AllocGlobal), items: &ItemList) -> ItemList {
    let mut atoms = ItemList::new(rt.alloc());
    for item in items.as_slice() {
        atoms = with_item(rt, atoms, typed_value(rt, item));
    }
    atoms
}

// The typed value of a comment and of a processing instruction is a string, that of all other nodes
// untyped.
#[test]
fn typed_values_of_items(rt: HostRuntime) {
    let words = "n:document,n:a,n:k,n:text,n:comment,n:pi,n:b,i:1,true,s:x";
    let items = items_of(&rt, words);
    let found = printed(&rt, Ok(typed_values(&rt, &items)));
    drop(items);
    assert_eq!(rt; found.as_str(), "u:t,u:t,u:1,u:t,s:c,s:d,u:,i:1,true,s:x");
    drop(found);
}

fn are_nodes(rt: &(impl Abort + AllocGlobal), words: &str) -> bool {
    let items = items_of(rt, words);
    let are = operators::are_nodes(items.as_slice());
    drop(items);
    are
}

#[test]
fn lists_of_nodes_alone(rt: HostRuntime) {
    let cases = [
        ("", true),
        ("n:a", true),
        ("n:b,n:k,o:text", true),
        ("n:a,i:1", false),
        ("s:x,n:a", false),
        ("true", false),
    ];
    for (words, wanted) in cases {
        assert_eq!(rt; are_nodes(&rt, words), wanted, "{words}");
    }
}

fn key_of(word: &str) -> Option<Atom> {
    match word {
        "none" => None,
        "t" => Some(Atom::Bool(true)),
        digits => Some(Atom::Int(digits.parse::<i64>().unwrap_or(0))),
    }
}

// A row of one key for each word; `none` stands for no key.
fn rows_of(rt: &(impl Abort + AllocGlobal), words: &str) -> List<KeyRow> {
    let mut rows = List::new(rt.alloc());
    for word in words.split(";") {
        let cells = list_of(rt, key_of(word));
        rows = with(rt, rows, KeyRow { cells });
    }
    rows
}

fn put_places(rt: &(impl Abort + AllocGlobal), out: &mut String, places: &[u64]) {
    for place in places {
        put_place(rt, out, *place as usize);
    }
}

// The places, or the code of the error.
fn sorted(rt: &(impl Abort + AllocGlobal), words: &str, descending: bool) -> String {
    let rows = rows_of(rt, words);
    let outcome = values::sorted_places(rt.alloc(), WRONG_TYPE, &rows, &[descending]);
    drop(rows);
    put_outcome(rt, outcome)
}

fn put_outcome(rt: &(impl Abort + AllocGlobal), outcome: Result<List<u64>, ValueFault>) -> String {
    let mut out = String::new(rt.alloc());
    match outcome {
        Ok(places) => {
            put_places(rt, &mut out, places.as_slice());
            drop(places);
        }
        Err(ValueFault::Error(code)) => put(rt, &mut out, code.text()),
        Err(ValueFault::Memory(_)) => put(rt, &mut out, "memory"),
    }
    out
}

#[test]
fn places_of_rows_in_order(rt: HostRuntime) {
    let cases = [
        ("3;1;none;2", false, "2130"),
        ("3;1;none;2", true, "0312"),
        ("1;2;1;2", false, "0213"),
        ("1;2;1;2", true, "1302"),
        ("1;t", false, "XPTY0004"),
        ("none;none", true, "01"),
    ];
    for (words, descending, wanted) in cases {
        let found = sorted(&rt, words, descending);
        assert_eq!(rt; found.as_str(), wanted, "{words}");
        drop(found);
    }
}

// The tree of a node without a number.
fn unnumbered(item: &Item) -> Option<&Tree> {
    match item {
        Item::Node(node) if node.number() == 0 => Some(node.tree()),
        _ => None,
    }
}

fn is_text(tree: Option<&Tree>, wanted: &str) -> bool {
    match tree {
        Some(Tree::Text(value)) => value.as_str() == wanted,
        _ => false,
    }
}

fn is_attribute(tree: Option<&Tree>, local: &str, wanted: &str) -> bool {
    match tree {
        Some(Tree::Attr(own, value)) => own.local.as_str() == local && value.as_str() == wanted,
        _ => false,
    }
}

#[test]
fn literal_texts_are_nodes_without_a_number(rt: HostRuntime) {
    let made = nodes::text_node(rt.alloc(), text(&rt, "t")).expect(&rt, "memory");
    assert!(rt; is_text(unnumbered(&made), "t"));
    drop(made);
}

#[test]
fn literal_attributes_are_nodes_without_a_number(rt: HostRuntime) {
    let own = name(&rt, "p", "urn:p", "m");
    let made = nodes::attribute_node(rt.alloc(), own, text(&rt, "v")).expect(&rt, "memory");
    assert!(rt; is_attribute(unnumbered(&made), "m", "v"));
    drop(made);
}

// The code of the error, or the empty text.
fn refusal(outcome: Result<Name, Code>) -> &'static str {
    match outcome {
        Ok(own) => {
            drop(own);
            ""
        }
        Err(code) => code.text(),
    }
}

// `xmlns` names an attribute only within a namespace.
#[test]
fn attributes_are_not_named_xmlns(rt: HostRuntime) {
    let cases = [
        ("", "a", ""),
        ("", "xmlns", "XQDY0044"),
        ("urn:p", "xmlns", ""),
    ];
    for (uri, local, wanted) in cases {
        let found = refusal(nodes::checked_attribute(name(&rt, "p", uri, local)));
        assert_eq!(rt; found, wanted, "{local}");
    }
}

fn target_refusal(outcome: Result<Text, ValueFault>) -> &'static str {
    match outcome {
        Ok(text) => {
            drop(text);
            ""
        }
        Err(ValueFault::Error(code)) => code.text(),
        Err(ValueFault::Memory(_)) => "memory",
    }
}

#[test]
fn targets_of_processing_instructions(rt: HostRuntime) {
    let cases = [
        ("t", ""),
        ("xml-x", ""),
        ("xMl", "XQDY0064"),
        ("1", "XQDY0041"),
        ("p:t", "XQDY0041"),
        ("", "XQDY0041"),
    ];
    for (word, wanted) in cases {
        let found = target_refusal(nodes::fixed_target(text(&rt, word)));
        assert_eq!(rt; found, wanted, "{word}");
    }
}

fn find_without_arguments(rt: &(impl Abort + AllocGlobal), local: &str) -> Called {
    let own = ExprName {
        uri: text(rt, "http://www.w3.org/2005/xpath-functions"),
        local: text(rt, local),
    };
    let found = calls::find_called(&own, 0);
    drop(own);
    found
}

// What the function of the library answers without arguments and focus.
fn called(rt: &(impl Abort + AllocGlobal), local: &str) -> String {
    match find_without_arguments(rt, local) {
        Called::Library(f) => printed(rt, calls::call_library(rt.alloc(), f, &Focus::Absent, &[])),
        _ => String::new(rt.alloc()),
    }
}

// What reads the focus has no value without one.
#[test]
fn functions_need_a_focus(rt: HostRuntime) {
    let cases = [
        ("position", "XPDY0002"),
        ("last", "XPDY0002"),
        ("string", "XPDY0002"),
        ("name", "XPDY0002"),
        ("local-name", "XPDY0002"),
        ("namespace-uri", "XPDY0002"),
        ("root", "XPDY0002"),
        ("string-length", "XPDY0002"),
        ("normalize-space", "XPDY0002"),
        ("true", "true"),
        ("error", "FOER0000"),
    ];
    for (local, wanted) in cases {
        let found = called(&rt, local);
        assert_eq!(rt; found.as_str(), wanted, "{local}()");
        drop(found);
    }
}
