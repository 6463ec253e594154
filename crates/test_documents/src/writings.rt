// The texts of trees.
use crate::made::{attribute, document, element, list_of, name, text, with};
use doc_writer::{WriteRefusal, write_tree, write_tree_bare};
use std::alloc::AllocGlobal;
use std::process::Abort;
use xt_names::{List, Name};
use xt_tree::{Attribute, Tree, tree_at};

// Whether the tree is written as these characters, after the XML declaration and without it.
fn is_written(rt: &(impl Abort + AllocGlobal), tree: &Tree, expected: &str) -> bool {
    let whole = format!(in rt.alloc();
        "<?xml version=\"1.0\" encoding=\"UTF-8\"?>{expected}"
    ).expect(rt, "memory");
    let bytes = write_tree(rt.alloc(), tree).expect(rt, "a tree with a text");
    let bare = write_tree_bare(rt.alloc(), tree).expect(rt, "a tree with a text");
    bytes.as_slice() == whole.as_bytes() && bare.as_slice() == expected.as_bytes()
}

// Documents that are written as they were read.
const SAME: [&str; 14] = [
    "<a/>",
    "<!--c--><a/>",
    "<a k=\"&quot;&#x9;&#xA;&#xD;&lt;>&amp;\"/>",
    "<a>a&lt;b&gt;&amp;&#xD;\"\u{E9}</a>",
    "<a>x<b>y</b><!--c-->z<?t d?><?t?></a>",
    // a default namespace is undone
    "<a xmlns=\"u\"><b xmlns=\"\"/></a>",
    // a default namespace is in force on children
    "<a xmlns=\"u\"><b><c/></b></a>",
    // a prefix is bound to another namespace further in
    "<p:a xmlns:p=\"u\"><p:b xmlns:p=\"w\"/></p:a>",
    // an attribute binds a prefix that only an outer element writes
    "<p:a xmlns:p=\"u\"><b xmlns:p=\"w\" p:k=\"v\"/></p:a>",
    // after an element its bindings are gone
    "<a><p:b xmlns:p=\"u\"/><p:c xmlns:p=\"u\"/></a>",
    "<p:a xmlns:p=\"u\" p:k=\"v\"/>",
    "<a xmlns:p=\"u\" p:k=\"v\"><p:b/></a>",
    "<a xmlns=\"a&quot;&lt;\" k=\"v\"/>",
    "<a xml:lang=\"en\"/>",
];

#[test]
fn documents_are_written_as_they_were_read(rt: HostRuntime) {
    for text in SAME {
        let tree = document(&rt, text);
        assert!(rt; is_written(&rt, &tree, text), "{text}");
        drop(tree);
    }
}

// A document, the place of a node in it, and the text of this node alone.
const ALONE: [(&str, &[usize], &str); 5] = [
    (
        "<a>a&lt;b>&amp;&#13;\"\u{E9}</a>",
        &[0, 0],
        "a&lt;b&gt;&amp;&#xD;\"\u{E9}",
    ),
    (
        "<a>\u{7E}\u{7F}\u{85}\u{9F}\u{A0}\u{2028}</a>",
        &[0, 0],
        "\u{7E}&#x7F;&#x85;&#x9F;\u{A0}&#x2028;",
    ),
    ("<?t d?><a/>", &[0], "<?t d?>"),
    ("<?t?><a/>", &[0], "<?t?>"),
    ("<a xmlns='u'><b/></a>", &[0, 0], "<b xmlns=\"u\"/>"),
];

#[test]
fn nodes_are_written_alone(rt: HostRuntime) {
    for (text, path, expected) in ALONE {
        let tree = document(&rt, text);
        let node = tree_at(&tree, path).expect(&rt, "a place of the tree");
        assert!(rt; is_written(&rt, node, expected), "{text}");
        drop(tree);
    }
}

// What no text gives: the prefix and uri of an element, the same of its attribute, and the text
// that is written.
const MADE: [((&str, &str), (&str, &str), &str); 3] = [
    (
        ("p", "u"),
        ("p", "w"),
        "<p:a xmlns:p=\"u\" xmlns:ns0=\"w\" ns0:k=\"v\"/>",
    ),
    (
        ("", "u"),
        ("", "u"),
        "<a xmlns=\"u\" xmlns:ns0=\"u\" ns0:k=\"v\"/>",
    ),
    (
        ("ns0", "u"),
        ("", "w"),
        "<ns0:a xmlns:ns0=\"u\" xmlns:ns1=\"w\" ns1:k=\"v\"/>",
    ),
];

// An element without children.
fn tagged(rt: &(impl Abort + AllocGlobal), name: Name, attributes: List<Attribute>) -> Tree {
    element(rt, name, attributes, List::new(rt.alloc()))
}

#[test]
fn prefixes_are_made(rt: HostRuntime) {
    for (outer, inner, expected) in MADE {
        let attributes = list_of(&rt, attribute(&rt, name(&rt, inner.0, inner.1, "k"), "v"));
        let tree = tagged(&rt, name(&rt, outer.0, outer.1, "a"), attributes);
        assert!(rt; is_written(&rt, &tree, expected), "{expected}");
        drop(tree);
    }
}

#[test]
fn one_prefix_of_two_attributes_is_kept_once(rt: HostRuntime) {
    let first = list_of(&rt, attribute(&rt, name(&rt, "p", "u", "k"), "1"));
    let both = with(&rt, first, attribute(&rt, name(&rt, "p", "w", "k"), "2"));
    let tree = tagged(&rt, name(&rt, "", "", "a"), both);
    let expected = "<a xmlns:p=\"u\" xmlns:ns0=\"w\" p:k=\"1\" ns0:k=\"2\"/>";
    assert!(rt; is_written(&rt, &tree, expected));
    drop(tree);
}

fn is_refused(written: Result<Vec<u8>, WriteRefusal>) -> bool {
    match written {
        Err(WriteRefusal::Code(code)) => code.text() == "SENR0001",
        _ => false,
    }
}

#[test]
fn an_attribute_is_refused(rt: HostRuntime) {
    let tree = Tree::Attr(name(&rt, "", "", "k"), text(&rt, "v"));
    assert!(rt; is_refused(write_tree(rt.alloc(), &tree)));
    assert!(rt; is_refused(write_tree_bare(rt.alloc(), &tree)));
    drop(tree);
}
