// Calls and answers as texts.
//
// Arguments stand apart by `;` and items by `,`. An item is `s:`, `u:` or `i:` and a string, an
// untyped value or an integer, `q:` and a QName as `prefix{uri}local`, `n:` and a node of the
// sample, or `true` or `false`. An answer is its items, or the code of its error.
use crate::made::{name, node, text, with, with_item};
use fn_lib::{Builtin, call, find};
use std::alloc::AllocGlobal;
use std::process::Abort;
use xdm_items::{Item, ItemList};
use xt_atoms::{Atom, ValueFault};
use xt_names::{ExprName, List, Name};
use xt_tree::Node;

fn name_of(rt: &(impl Abort + AllocGlobal), word: &str) -> Name {
    let (prefix, rest) = word.split_once("{").unwrap_or(("", ""));
    let (uri, local) = rest.split_once("}").unwrap_or(("", ""));
    name(rt, prefix, uri, local)
}

fn qname_of(rt: &(impl Abort + AllocGlobal), word: &str) -> Atom {
    Atom::of_name(rt.alloc(), name_of(rt, word)).expect(rt, "memory")
}

fn item_of(rt: &(impl Abort + AllocGlobal), kind: &str, value: &str) -> Item {
    match kind {
        "s" => Item::Atom(Atom::Str(text(rt, value))),
        "u" => Item::Atom(Atom::Untyped(text(rt, value))),
        "i" => Item::Atom(Atom::Int(value.parse::<i64>().unwrap_or(0))),
        "q" => Item::Atom(qname_of(rt, value)),
        "n" => Item::Node(node(rt, value)),
        _ => Item::Atom(Atom::Bool(kind == "true")),
    }
}

fn items_of(rt: &(impl Abort + AllocGlobal), words: &str) -> ItemList {
    let mut items = ItemList::new(rt.alloc());
    if words != "" {
        for word in words.split(",") {
            let (kind, value) = word.split_once(":").unwrap_or((word, ""));
            items = with_item(rt, items, item_of(rt, kind, value));
        }
    }
    items
}

// the arguments; `none` stands for no argument
fn arguments_of(rt: &(impl Abort + AllocGlobal), words: &str) -> List<ItemList> {
    let mut args = List::new(rt.alloc());
    if words != "none" {
        for argument in words.split(";") {
            args = with(rt, args, items_of(rt, argument));
        }
    }
    args
}

// the function; what it reads of the focus is no argument of `position` and `last`
fn function(rt: &(impl Abort + AllocGlobal), word: &str, count: usize) -> Builtin {
    let arity = match word {
        "position" | "last" => 0,
        _ => count,
    };
    let name = ExprName {
        uri: text(rt, "http://www.w3.org/2005/xpath-functions"),
        local: text(rt, word),
    };
    let found = find(&name, arity);
    drop(name);
    found.expect(rt, "a function")
}

fn put(rt: &(impl Abort + AllocGlobal), out: &mut String, s: &str) {
    out.push_str(s).expect(rt, "memory");
}

fn put_name(rt: &(impl Abort + AllocGlobal), out: &mut String, name: &Name) {
    put(rt, out, "q:");
    put(rt, out, name.prefix.as_str());
    put(rt, out, "{");
    put(rt, out, name.uri.as_str());
    put(rt, out, "}");
    put(rt, out, name.local.as_str());
}

fn put_number(rt: &(impl Abort + AllocGlobal), out: &mut String, number: i64) {
    let digits = format!(in rt.alloc(); "i:{number}").expect(rt, "memory");
    put(rt, out, digits.as_str());
    drop(digits);
}

// the path of the node, with `@` for an attribute
fn put_node(rt: &(impl Abort + AllocGlobal), out: &mut String, node: &Node) {
    put(rt, out, "n:/");
    for number in node.path() {
        let digits = format!(in rt.alloc(); "{number}").expect(rt, "memory");
        put(rt, out, digits.as_str());
        drop(digits);
    }
    if node.attribute_place().is_some() {
        put(rt, out, "@");
    }
}

fn put_item(rt: &(impl Abort + AllocGlobal), out: &mut String, item: &Item) {
    match item {
        Item::Atom(Atom::Str(value)) => {
            put(rt, out, "s:");
            put(rt, out, value.as_str());
        }
        Item::Atom(Atom::Untyped(value)) => {
            put(rt, out, "u:");
            put(rt, out, value.as_str());
        }
        Item::Atom(Atom::Int(number)) => put_number(rt, out, *number),
        Item::Atom(Atom::Bool(truth)) => put(rt, out, if *truth { "true" } else { "false" }),
        Item::Atom(Atom::QName(name)) => put_name(rt, out, name.get()),
        Item::Node(node) => put_node(rt, out, node),
    }
}

fn put_items(rt: &(impl Abort + AllocGlobal), out: &mut String, items: &ItemList) {
    let mut between = "";
    for item in items.as_slice() {
        put(rt, out, between);
        put_item(rt, out, item);
        between = ",";
    }
}

fn printed(rt: &(impl Abort + AllocGlobal), outcome: Result<ItemList, ValueFault>) -> String {
    let mut out = String::new(rt.alloc());
    match outcome {
        Ok(items) => {
            put_items(rt, &mut out, &items);
            drop(items);
        }
        Err(ValueFault::Error(code)) => put(rt, &mut out, code.text()),
        Err(ValueFault::Memory(_)) => put(rt, &mut out, "memory"),
    }
    out
}

// what the call answers
pub(crate) fn answer(rt: &(impl Abort + AllocGlobal), word: &str, words: &str) -> String {
    let args = arguments_of(rt, words);
    let outcome = call(rt.alloc(), function(rt, word, args.len()), args.as_slice());
    drop(args);
    printed(rt, outcome)
}
