// What is done between evaluations, by XPath 2.0, 3.2, 3.3 and 3.10, and XQuery 1.0, 3.7 and 3.8.
use crate::made::{list_of, name, text};
use crate::written::{items_of, printed, put};
use doc_set::DocSet;
use eval_calls as calls;
use eval_nodes as nodes;
use eval_scopes::eval_values::{OneOperator, Operator, Place};
use eval_scopes::{
    Env, EvalFault, Fixed, Focus, Globals, Scope, State, Variable, eval_values as values,
};
use lazy_seq::Seq;
use std::alloc::{AllocGlobal, Global};
use std::process::Abort;
use xdm_items::{Item, ItemList};
use xt_atoms::ValueFault;
use xt_names::{ArithOp, AtomType, Binding, Code, DynamicCode, ExprName, Name};
use xt_types::{Axis, Count, ItemType, SeqType, Test};

const WRONG_TYPE: Code = Code::Dynamic(DynamicCode::XPTY0004);

fn step(alloc: Global, axis: Axis, items: &ItemList) -> Result<ItemList, ValueFault> {
    match items.as_slice() {
        [first, ..] => values::step(alloc, axis, &Test::Node, first),
        [] => Ok(ItemList::new(alloc)),
    }
}

fn integer(items: ItemList) -> Result<ItemList, ValueFault> {
    let kind = Some(SeqType::Of(ItemType::Atomic(AtomType::Int), Count::One));
    let outcome = match values::typed(&kind, items) {
        Ok(items) => Ok(items),
        Err(code) => Err(ValueFault::Error(code)),
    };
    drop(kind);
    outcome
}

fn key(alloc: Global, items: &ItemList) -> Result<ItemList, ValueFault> {
    match values::key_cell(alloc, WRONG_TYPE, items)? {
        None => Ok(ItemList::new(alloc)),
        Some(atom) => Ok(values::one(alloc, Item::Atom(atom))?),
    }
}

fn path(items: ItemList) -> Result<ItemList, ValueFault> {
    match values::path_nodes(&items) {
        Ok(()) => Ok(items),
        Err(code) => {
            drop(items);
            Err(ValueFault::Error(code))
        }
    }
}

fn answer(alloc: Global, word: &str, items: ItemList) -> Result<ItemList, ValueFault> {
    match word {
        "child" => step(alloc, Axis::Child, &items),
        "attribute" => step(alloc, Axis::Attribute, &items),
        "ancestor" => step(alloc, Axis::Ancestor, &items),
        "integer" => integer(items),
        "key" => key(alloc, &items),
        "before /" => path(items),
        "behind /" => values::path_value(alloc, items),
        "joined" => Ok(nodes::joined_atoms(alloc, &items)?),
        "twice" => values::apply(alloc, Operator::Arith(ArithOp::Add), &items, &items),
        "to itself" => values::apply(alloc, Operator::Range, &items, &items),
        "union" => values::apply(alloc, Operator::Union, &items, &items),
        "boolean" => {
            values::apply_to_one(alloc, OneOperator::Cast(AtomType::Bool, false), &items)
        }
        _ => values::apply_to_one(alloc, OneOperator::Minus, &items),
    }
}

#[test]
fn values_between_evaluations(rt: HostRuntime) {
    let cases = [
        ("child", "n:a", "n:/00,n:/01,n:/02,n:/03"),
        ("attribute", "n:a", "n:/0@0,n:/0@1"),
        ("ancestor", "n:b", "n:/0,n:/"),
        ("child", "i:1", "XPTY0020"),
        ("integer", "i:1", "i:1"),
        ("integer", "i:1,i:2", "XPTY0004"),
        ("integer", "u:1", "XPTY0004"),
        ("key", "", ""),
        ("key", "n:k", "u:1"),
        ("key", "i:1,i:2", "XPTY0004"),
        ("before /", "n:b,n:a", "n:/03,n:/0"),
        ("before /", "n:a,i:1", "XPTY0019"),
        ("behind /", "n:b,n:a,n:b", "n:/0,n:/03"),
        ("behind /", "i:2,i:1,i:2", "i:2,i:1,i:2"),
        ("behind /", "i:1,n:a", "XPTY0018"),
        ("behind /", "", ""),
        ("twice", "i:21", "i:42"),
        ("twice", "", ""),
        ("to itself", "i:3", "i:3"),
        ("union", "n:b,n:a", "n:/0,n:/03"),
        ("union", "i:1", "XPTY0004"),
        ("boolean", "s:true", "true"),
        ("boolean", "s:x", "FORG0001"),
        ("-", "i:5", "i:-5"),
    ];
    for (word, words, wanted) in cases {
        let outcome = answer(rt.alloc(), word, items_of(&rt, words));
        let found = printed(&rt, outcome);
        assert_eq!(rt; found.as_str(), wanted, "{word}({words})");
        drop(found);
    }
}

#[test]
fn atoms_beside_each_other_are_one_text(rt: HostRuntime) {
    let items = items_of(&rt, "i:1,s:a,n:b,u:x,n:text");
    let made = nodes::joined_atoms(rt.alloc(), &items).expect(&rt, "memory");
    assert_eq!(rt; made.len(), 4);
    drop(made);
    let spaced = nodes::spaced_text(rt.alloc(), &items).expect(&rt, "memory");
    assert_eq!(rt; spaced.as_str(), "1 a  x t");
    drop(spaced);
    drop(items);
}

#[test]
fn predicates_by_position_and_truth(rt: HostRuntime) {
    let second = Place::new(2).expect(&rt, "a place");
    let cases = [
        ("i:2", Ok(true)),
        ("i:1", Ok(false)),
        ("s:x", Ok(true)),
        ("", Ok(false)),
        ("n:a,i:1", Ok(true)),
        ("i:2,i:2", Err(Code::Dynamic(DynamicCode::FORG0006))),
    ];
    for (words, wanted) in cases {
        let value = items_of(&rt, words);
        let found = values::is_kept(second, &value);
        drop(value);
        assert!(rt; found == wanted, "[{words}]");
    }
    assert_eq!(rt; Place::first().get(), 1);
    assert!(rt; Place::new(0x8000_0000_0000_0000).is_none());
}

fn binding(rt: &(impl Abort + AllocGlobal), prefix: &str, uri: &str) -> Binding {
    Binding {
        prefix: text(rt, prefix),
        uri: text(rt, uri),
    }
}

fn put_name(rt: &(impl Abort + AllocGlobal), outcome: Result<Name, ValueFault>) -> String {
    let mut out = String::new(rt.alloc());
    match outcome {
        Ok(name) => {
            put(rt, &mut out, name.uri.as_str());
            put(rt, &mut out, "#");
            put(rt, &mut out, name.local.as_str());
            drop(name);
        }
        Err(ValueFault::Error(code)) => put(rt, &mut out, code.text()),
        Err(ValueFault::Memory(_)) => put(rt, &mut out, "memory"),
    }
    out
}

#[test]
fn names_that_are_computed(rt: HostRuntime) {
    let namespaces = list_of(&rt, binding(&rt, "p", "urn:p"));
    let default = text(&rt, "urn:d");
    let cases = [
        ("s:a", "urn:d#a"),
        ("u:p:a", "urn:p#a"),
        ("s:xs:a", "http://www.w3.org/2001/XMLSchema#a"),
        ("s:xml:a", "http://www.w3.org/XML/1998/namespace#a"),
        ("s:q:a", "XQDY0074"),
        ("s:1", "XQDY0074"),
        ("i:1", "XQDY0074"),
        ("", "XQDY0074"),
        ("s:a,s:b", "XQDY0074"),
        ("q:p{urn:o}b", "urn:o#b"),
    ];
    for (words, wanted) in cases {
        let items = items_of(&rt, words);
        let made = nodes::computed_element(rt.alloc(), namespaces.as_slice(), &default, &items);
        let found = put_name(&rt, made);
        drop(items);
        assert_eq!(rt; found.as_str(), wanted, "{words}");
        drop(found);
    }
    drop(default);
    drop(namespaces);
}

#[test]
fn names_of_attributes_and_targets(rt: HostRuntime) {
    let namespaces = list_of(&rt, binding(&rt, "p", "urn:p"));
    let cases = [("s:a", "#a"), ("s:p:a", "urn:p#a"), ("s:xmlns", "XQDY0044")];
    for (words, wanted) in cases {
        let items = items_of(&rt, words);
        let made = nodes::computed_attribute(rt.alloc(), namespaces.as_slice(), &items);
        let found = put_name(&rt, made);
        drop(items);
        assert_eq!(rt; found.as_str(), wanted, "{words}");
        drop(found);
    }
    drop(namespaces);
    let targets = [
        ("s:t", Ok(())),
        ("s:xMl", Err("XQDY0064")),
        ("s:1", Err("XQDY0041")),
        ("i:1", Err("XQDY0041")),
        ("q:p{urn:o}b", Err("XQDY0041")),
    ];
    for (words, wanted) in targets {
        let items = items_of(&rt, words);
        let found = match nodes::computed_target(rt.alloc(), &items) {
            Ok(target) => {
                drop(target);
                Ok(())
            }
            Err(ValueFault::Error(code)) => Err(code.text()),
            Err(ValueFault::Memory(_)) => Err("memory"),
        };
        drop(items);
        assert!(rt; found == wanted, "{words}");
    }
}

fn made(
    rt: &(impl Abort + AllocGlobal),
    next: &mut u64,
    word: &str,
) -> Result<ItemList, EvalFault> {
    let alloc = rt.alloc();
    let none = ItemList::new(alloc);
    let outcome = match word {
        "element" => nodes::make_element(alloc, next, name(rt, "", "", "e"), &none),
        "document" => nodes::make_document(alloc, next, &none),
        "attribute" => nodes::make_attribute(alloc, next, name(rt, "", "", "a"), "v"),
        "text" => nodes::make_text(alloc, next, "t"),
        "comment" => nodes::make_comment(alloc, next, "c"),
        "bad comment" => nodes::make_comment(alloc, next, "a--b"),
        "bad pi" => nodes::make_pi(alloc, next, "t", "a?>b"),
        _ => nodes::make_pi(alloc, next, "t", "v"),
    };
    drop(none);
    outcome
}

#[test]
fn trees_take_the_next_number(rt: HostRuntime) {
    let mut next = 7;
    let cases = [
        ("element", 8),
        ("document", 9),
        ("attribute", 10),
        ("text", 11),
        ("comment", 12),
        ("pi", 13),
    ];
    for (word, wanted) in cases {
        let list = made(&rt, &mut next, word).expect(&rt, "a node");
        assert_eq!(rt; list.len(), 1, "{word}");
        drop(list);
        assert_eq!(rt; next, wanted, "{word}");
    }
    for word in ["bad comment", "bad pi"] {
        let refused = made(&rt, &mut next, word).is_err();
        assert!(rt; refused, "{word}");
        assert_eq!(rt; next, 13, "{word}");
    }
}

fn variable(rt: &(impl Abort + AllocGlobal), local: &str, words: &str) -> Variable {
    Variable {
        name: ExprName {
            uri: text(rt, ""),
            local: text(rt, local),
        },
        value: Seq::of_list(items_of(rt, words)),
    }
}

fn evaluated(rt: &(impl Abort + AllocGlobal), outcome: Result<ItemList, EvalFault>) -> String {
    match outcome {
        Ok(items) => printed(rt, Ok(items)),
        Err(EvalFault::Error(code)) => printed(rt, Err(ValueFault::Error(code))),
        Err(EvalFault::Deep) => printed(rt, Ok(ItemList::new(rt.alloc()))),
        Err(EvalFault::Memory(e)) => printed(rt, Err(ValueFault::Memory(e))),
    }
}

// what a name, `.`, `/` or doc() of a document that is not there gives
fn read(
    rt: &(impl Abort + AllocGlobal),
    fixed: &Fixed,
    env: &Env,
    word: &str,
) -> Result<ItemList, EvalFault> {
    match word {
        "." => eval_scopes::context_item(rt.alloc(), env),
        "/" => eval_scopes::document_root(rt.alloc(), env),
        "doc" => {
            let argument = items_of(rt, "s:d.xml");
            let found = eval_scopes::document_value(rt.alloc(), fixed, &argument);
            drop(argument);
            found
        }
        local => {
            let name = ExprName {
                uri: text(rt, ""),
                local: text(rt, local),
            };
            let found = eval_scopes::variable_list(rt.alloc(), fixed, env, &name);
            drop(name);
            found
        }
    }
}

// where two variables `x` and one `y` are local, another `y`, two `w` and `g` global, and this item
// is the focus
fn check_names(rt: &(impl Abort + AllocGlobal), item: &Item) {
    let documents = DocSet::new(rt.alloc());
    let default = text(rt, "");
    let outermost = Scope::Outermost;
    let mut globals = Globals::new(rt.alloc());
    for (name, value) in [("w", "i:6"), ("w", "i:5"), ("y", "i:9"), ("g", "i:8")] {
        globals = globals.with(variable(rt, name, value)).expect(rt, "memory");
    }
    let local = [
        variable(rt, "x", "i:1"),
        variable(rt, "x", "i:2,i:3"),
        variable(rt, "y", "i:4"),
    ];
    let locals = Scope::Inner {
        variables: &local,
        outer: &outermost,
    };
    let fixed = Fixed {
        globals: &globals,
        documents: &documents,
        namespaces: &[],
        element_default: &default,
    };
    let state = State {
        current: None,
        rule: None,
        mode: 0,
        group: None,
        tunnel: &outermost,
    };
    let focus = Focus::At {
        item,
        position: Place::first(),
        size: Place::first(),
    };
    let env = Env {
        locals: &locals,
        focus: &focus,
        state: &state,
    };
    let cases = [
        ("x", "i:2,i:3"),
        ("y", "i:4"),
        ("w", "i:5"),
        ("g", "i:8"),
        ("z", "XPDY0002"),
        (".", "n:/03"),
        ("/", "n:/"),
        ("doc", "FODC0002"),
    ];
    for (word, wanted) in cases {
        let found = evaluated(rt, read(rt, &fixed, &env, word));
        assert_eq!(rt; found.as_str(), wanted, "{word}");
        drop(found);
    }
}

#[test]
fn names_in_scope_and_the_focus(rt: HostRuntime) {
    let items = items_of(&rt, "n:b");
    assert_eq!(rt; items.len(), 1);
    for item in items.as_slice() {
        check_names(&rt, item);
    }
    drop(items);
}

#[test]
fn functions_read_the_focus(rt: HostRuntime) {
    let items = items_of(&rt, "n:b");
    let two = Place::new(2).expect(&rt, "a place");
    let focus = match items.as_slice() {
        [item, ..] => Focus::At {
            item,
            position: Place::first(),
            size: two,
        },
        [] => Focus::Absent,
    };
    let cases = [
        ("position", "i:1"),
        ("last", "i:2"),
        ("local-name", "s:b"),
        ("string-length", "i:0"),
        ("true", "true"),
    ];
    for (local, wanted) in cases {
        let name = ExprName {
            uri: text(&rt, "http://www.w3.org/2005/xpath-functions"),
            local: text(&rt, local),
        };
        let outcome = match calls::find_called(&name, 0) {
            calls::Called::Library(f) => calls::call_library(rt.alloc(), f, &focus, &[]),
            _ => Ok(ItemList::new(rt.alloc())),
        };
        drop(name);
        let found = printed(&rt, outcome);
        assert_eq!(rt; found.as_str(), wanted, "{local}()");
        drop(found);
    }
    let root = calls::key_root(rt.alloc(), &focus).is_ok();
    assert!(rt; root);
    let absent = calls::key_root(rt.alloc(), &Focus::Absent).is_err();
    assert!(rt; absent);
    let none = printed(&rt, calls::current_item(rt.alloc(), None));
    assert_eq!(rt; none.as_str(), "XPDY0002");
    drop(none);
    let empty = calls::group_members(rt.alloc(), None).expect(&rt, "memory");
    assert_eq!(rt; empty.len(), 0);
    drop(empty);
    let keyless = calls::group_key(rt.alloc(), None).expect(&rt, "memory");
    assert_eq!(rt; keyless.len(), 0);
    drop(keyless);
    let argument = items_of(&rt, "s:k");
    let key = calls::key_name(rt.alloc(), &argument).expect(&rt, "memory");
    assert_eq!(rt; key.as_str(), "k");
    drop(key);
    drop(argument);
}
