// Operators and their answers as texts.
//
// Operands stand apart by `;` and items by `,`. An item is `s:`, `u:` or `i:` and a string, an
// untyped value or an integer, `n:` and a node of the sample, `o:` and one of another tree, or
// `true` or `false`. An answer is its items, or the code of its error.
use crate::made::{name, node, text, with_item};
use operator_values as operators;
use std::alloc::{AllocGlobal, Global};
use std::process::Abort;
use xdm_items::{Item, ItemList};
use xt_atoms::{Atom, ValueFault};
use xt_names::{ArithOp, AtomType, CompareOp, Name};
use xt_tree::Node;
use xt_types::{Count, ItemType, SeqType};

fn name_of(rt: &(impl Abort + AllocGlobal), word: &str) -> Name {
    let (prefix, rest) = word.split_once("{").unwrap_or(("", ""));
    let (uri, local) = rest.split_once("}").unwrap_or(("", ""));
    name(rt, prefix, uri, local)
}

fn qname_of(rt: &(impl Abort + AllocGlobal), word: &str) -> Atom {
    Atom::of_name(rt.alloc(), name_of(rt, word)).expect(rt, "memory")
}

fn item_of(rt: &(impl Abort + AllocGlobal), kind: &str, value: &str) -> Item {
    match kind {
        "s" => Item::Atom(Atom::Str(text(rt, value))),
        "u" => Item::Atom(Atom::Untyped(text(rt, value))),
        "i" => Item::Atom(Atom::Int(value.parse::<i64>().unwrap_or(0))),
        "q" => Item::Atom(qname_of(rt, value)),
        "n" => Item::Node(node(rt, 1, value)),
        "o" => Item::Node(node(rt, 2, value)),
        _ => Item::Atom(Atom::Bool(kind == "true")),
    }
}

pub(crate) fn items_of(rt: &(impl Abort + AllocGlobal), words: &str) -> ItemList {
    let mut items = ItemList::new(rt.alloc());
    if words != "" {
        for word in words.split(",") {
            let (kind, value) = word.split_once(":").unwrap_or((word, ""));
            items = with_item(rt, items, item_of(rt, kind, value));
        }
    }
    items
}

pub(crate) fn put(rt: &(impl Abort + AllocGlobal), out: &mut String, s: &str) {
    out.push_str(s).expect(rt, "memory");
}

fn put_name(rt: &(impl Abort + AllocGlobal), out: &mut String, name: &Name) {
    put(rt, out, "q:");
    put(rt, out, name.prefix.as_str());
    put(rt, out, "{");
    put(rt, out, name.uri.as_str());
    put(rt, out, "}");
    put(rt, out, name.local.as_str());
}

fn put_number(rt: &(impl Abort + AllocGlobal), out: &mut String, number: i64) {
    let digits = format!(in rt.alloc(); "i:{number}").expect(rt, "memory");
    put(rt, out, digits.as_str());
    drop(digits);
}

pub(crate) fn put_place(rt: &(impl Abort + AllocGlobal), out: &mut String, place: usize) {
    let digits = format!(in rt.alloc(); "{place}").expect(rt, "memory");
    put(rt, out, digits.as_str());
    drop(digits);
}

// the path of the node, with `@` and its place for an attribute
fn put_node(rt: &(impl Abort + AllocGlobal), out: &mut String, node: &Node) {
    put(rt, out, if node.number() == 1 { "n:/" } else { "o:/" });
    for place in node.path() {
        put_place(rt, out, *place);
    }
    if let Some(place) = node.attribute_place() {
        put(rt, out, "@");
        put_place(rt, out, place);
    }
}

fn put_item(rt: &(impl Abort + AllocGlobal), out: &mut String, item: &Item) {
    match item {
        Item::Atom(Atom::Str(value)) => {
            put(rt, out, "s:");
            put(rt, out, value.as_str());
        }
        Item::Atom(Atom::Untyped(value)) => {
            put(rt, out, "u:");
            put(rt, out, value.as_str());
        }
        Item::Atom(Atom::Int(number)) => put_number(rt, out, *number),
        Item::Atom(Atom::Bool(truth)) => put(rt, out, if *truth { "true" } else { "false" }),
        Item::Atom(Atom::QName(name)) => put_name(rt, out, name.get()),
        Item::Node(node) => put_node(rt, out, node),
    }
}

fn put_items(rt: &(impl Abort + AllocGlobal), out: &mut String, items: &ItemList) {
    let mut between = "";
    for item in items.as_slice() {
        put(rt, out, between);
        put_item(rt, out, item);
        between = ",";
    }
}

pub(crate) fn printed(
    rt: &(impl Abort + AllocGlobal),
    outcome: Result<ItemList, ValueFault>,
) -> String {
    let mut out = String::new(rt.alloc());
    match outcome {
        Ok(items) => {
            put_items(rt, &mut out, &items);
            drop(items);
        }
        Err(ValueFault::Error(code)) => put(rt, &mut out, code.text()),
        Err(ValueFault::Memory(_)) => put(rt, &mut out, "memory"),
    }
    out
}

fn compare_op(word: &str) -> CompareOp {
    match word {
        "=" | "eq" => CompareOp::Eq,
        "!=" | "ne" => CompareOp::Ne,
        "<" | "lt" => CompareOp::Lt,
        "<=" | "le" => CompareOp::Le,
        ">" | "gt" => CompareOp::Gt,
        _ => CompareOp::Ge,
    }
}

fn arith_op(word: &str) -> ArithOp {
    match word {
        "+" => ArithOp::Add,
        "-" => ArithOp::Sub,
        "*" => ArithOp::Mul,
        "idiv" => ArithOp::Idiv,
        _ => ArithOp::Mod,
    }
}

fn range_of(alloc: Global, a: &ItemList, b: &ItemList) -> Result<ItemList, ValueFault> {
    match operators::range(alloc, a, b) {
        Ok(seq) => Ok(seq.to_list(alloc)?),
        Err(fault) => Err(fault),
    }
}

fn both(alloc: Global, word: &str, a: &ItemList, b: &ItemList) -> Result<ItemList, ValueFault> {
    match word {
        "=" | "!=" | "<" | "<=" | ">" | ">=" => operators::general(alloc, compare_op(word), a, b),
        "eq" | "ne" | "lt" | "le" | "gt" | "ge" => {
            operators::single(alloc, compare_op(word), a, b)
        }
        "is" => operators::is(alloc, a, b),
        "<<" => operators::before(alloc, a, b),
        ">>" => operators::after(alloc, a, b),
        "to" => range_of(alloc, a, b),
        "union" => operators::union(alloc, a, b),
        "intersect" => operators::intersect(alloc, a, b),
        "except" => operators::except(alloc, a, b),
        _ => operators::arithmetic(alloc, arith_op(word), a, b),
    }
}

// what the operator on two operands answers
pub(crate) fn answer(rt: &(impl Abort + AllocGlobal), word: &str, words: &str) -> String {
    let (left, right) = words.split_once(";").unwrap_or((words, ""));
    let a = items_of(rt, left);
    let b = items_of(rt, right);
    let outcome = both(rt.alloc(), word, &a, &b);
    drop(b);
    drop(a);
    printed(rt, outcome)
}

fn typed(count: Count) -> SeqType {
    SeqType::Of(ItemType::Atomic(AtomType::Int), count)
}

fn one(alloc: Global, word: &str, a: ItemList) -> Result<ItemList, ValueFault> {
    match word {
        "-" => operators::negated(alloc, &a),
        "+" => operators::signed(alloc, &a),
        "instance of integer" => operators::instance(alloc, &a, &typed(Count::One)),
        "instance of integers" => operators::instance(alloc, &a, &typed(Count::Many)),
        "treat as integer" => operators::treated(a, &typed(Count::One)),
        "cast as integer" => operators::cast_list(alloc, &a, AtomType::Int, false),
        "cast as integer?" => operators::cast_list(alloc, &a, AtomType::Int, true),
        "castable as integer" => operators::castable_list(alloc, &a, AtomType::Int, false),
        "castable as integer?" => operators::castable_list(alloc, &a, AtomType::Int, true),
        _ => operators::cast_list(alloc, &a, AtomType::Bool, false),
    }
}

// what the operator on one operand answers
pub(crate) fn answer_of_one(rt: &(impl Abort + AllocGlobal), word: &str, words: &str) -> String {
    let a = items_of(rt, words);
    let outcome = one(rt.alloc(), word, a);
    printed(rt, outcome)
}
