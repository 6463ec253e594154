// deep-equal of elements, by Functions and Operators, 15.3.1.
use crate::made::{element, name, one_item, text, two, with};
use fn_lib::{Builtin, call};
use std::alloc::AllocGlobal;
use std::process::Abort;
use xdm_items::{Item, ItemList};
use xt_atoms::Atom;
use xt_names::List;
use xt_tree::{Attribute, Node, Tree};

// The attributes of a word, as `k=1,m=2`.
fn attributes_of(rt: &(impl Abort + AllocGlobal), words: &str) -> List<Attribute> {
    let mut attributes = List::new(rt.alloc());
    for word in words.split(",") {
        if let Some((local, value)) = word.split_once("=") {
            let made = Attribute {
                name: name(rt, "", "", local),
                value: text(rt, value),
            };
            attributes = with(rt, attributes, made);
        }
    }
    attributes
}

// A child: an empty element, a comment, a processing instruction, or else a text.
fn child_of(rt: &(impl Abort + AllocGlobal), word: &str) -> Tree {
    match word {
        "e" => element(
            rt,
            name(rt, "", "", "e"),
            List::new(rt.alloc()),
            List::new(rt.alloc()),
        ),
        "!" => Tree::Comment(text(rt, "c")),
        "?" => Tree::Pi(text(rt, "t"), text(rt, "")),
        _ => Tree::Text(text(rt, word)),
    }
}

// The element `p:l` for `p:l;attributes;children`, in a tree of its own.
fn element_of(rt: &(impl Abort + AllocGlobal), words: &str) -> ItemList {
    let (own, rest) = words.split_once(";").unwrap_or((words, ""));
    let (attributes, children) = rest.split_once(";").unwrap_or((rest, ""));
    let (prefix, local) = own.split_once(":").unwrap_or(("", own));
    let mut kids = List::new(rt.alloc());
    for word in children.split_whitespace() {
        kids = with(rt, kids, child_of(rt, word));
    }
    let uri = if prefix == "" { "" } else { "urn:p" };
    let whole = element(
        rt,
        name(rt, prefix, uri, local),
        attributes_of(rt, attributes),
        kids,
    );
    let root = Node::root_of(rt.alloc(), 1, whole).expect(rt, "memory");
    one_item(rt, Item::Node(root))
}

fn are_deep_equal(rt: &(impl Abort + AllocGlobal), a: &str, b: &str) -> bool {
    let args = two(rt, element_of(rt, a), element_of(rt, b));
    let outcome = call(rt.alloc(), Builtin::DeepEqual, args.as_slice());
    drop(args);
    let items = outcome.expect(rt, "a value");
    let are = matches!(items.as_slice(), [Item::Atom(Atom::Bool(true))]);
    drop(items);
    are
}

#[test]
fn elements_are_deep_equal(rt: HostRuntime) {
    let cases = [
        ("a", "a", true),
        ("a", "b", false),
        ("p:a", "q:a", true),
        ("p:a", "a", false),
        ("a;k=1,m=2", "a;m=2,k=1", true),
        ("a;k=1", "a;k=2", false),
        ("a;k=1", "a;m=1", false),
        ("a;k=1", "a", false),
        ("a", "a;k=1", false),
        ("a;;x e", "a;;x e", true),
        ("a;;x e", "a;;e x", false),
        ("a;;x", "a;;y", false),
        ("a;;x", "a;;x e", false),
        ("a;;! x ? e !", "a;;x e", true),
        ("a;;x", "a;;x !", true),
        ("a;;?", "a", true),
        ("a;;e", "a;;!", false),
    ];
    for (a, b, wanted) in cases {
        assert_eq!(rt; are_deep_equal(&rt, a, b), wanted, "{a} and {b}");
    }
}
