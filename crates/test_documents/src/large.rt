// Large trees are written in good time, and each part of them.
use crate::made::{attribute, document, element, name, push, repeated, text};
use doc_writer::write_tree;
use std::alloc::AllocGlobal;
use std::process::Abort;
use xt_names::List;
use xt_tree::Tree;

const DECLARATION: &str = "<?xml version=\"1.0\" encoding=\"UTF-8\"?>";

// Whether the tree is written as these characters after the XML declaration.
fn is_written(rt: &(impl Abort + AllocGlobal), tree: &Tree, expected: &str) -> bool {
    let bytes = write_tree(rt.alloc(), tree).expect(rt, "a tree with a text");
    let bytes = bytes.as_slice();
    bytes.starts_with(DECLARATION.as_bytes()) && &bytes[DECLARATION.len()..] == expected.as_bytes()
}

#[test]
fn a_long_text_is_written(rt: HostRuntime) {
    let plain = repeated(&rt, "0123456789 abc & def ", 500_000);
    let tree = Tree::Text(text(&rt, plain.as_str()));
    let expected = repeated(&rt, "0123456789 abc &amp; def ", 500_000);
    assert!(rt; is_written(&rt, &tree, expected.as_str()));
    drop(tree);
}

// The outer text around so many of the inner ones.
fn around(
    rt: &(impl Abort + AllocGlobal),
    outer: (&str, &str),
    inner: &str,
    count: usize,
) -> String {
    let mut text = String::from_str(rt.alloc(), outer.0).expect(rt, "memory");
    push(rt, &mut text, repeated(rt, inner, count).as_str());
    push(rt, &mut text, outer.1);
    text
}

#[test]
fn many_elements_are_written(rt: HostRuntime) {
    let text = around(&rt, ("<a>", "</a>"), "<b/>", 100_000);
    let tree = document(&rt, text.as_str());
    assert!(rt; is_written(&rt, &tree, text.as_str()));
    drop(tree);
}

#[test]
fn many_levels_are_written(rt: HostRuntime) {
    let begins = repeated(&rt, "<a>", 1999);
    let ends = repeated(&rt, "</a>", 1999);
    let text = around(&rt, (begins.as_str(), ends.as_str()), "<a/>", 1);
    let tree = document(&rt, text.as_str());
    assert!(rt; is_written(&rt, &tree, text.as_str()));
    drop(tree);
}

// An element with so many attributes of one prefix and as many namespaces.
fn crowded(rt: &(impl Abort + AllocGlobal), count: u32) -> Tree {
    let mut attributes = List::new(rt.alloc());
    for number in 0..count {
        let uri = format!(in rt.alloc(); "u{number}").expect(rt, "memory");
        let name = name(rt, "p", uri.as_str(), "k");
        attributes
            .push(attribute(rt, name, "v"))
            .expect(rt, "memory");
    }
    element(rt, name(rt, "", "", "a"), attributes, List::new(rt.alloc()))
}

// Its text: the first attribute keeps the prefix, and each other one gets a prefix of its own.
fn crowded_text(rt: &(impl Abort + AllocGlobal), count: u32) -> String {
    let mut text = String::from_str(rt.alloc(), "<a xmlns:p=\"u0\"").expect(rt, "memory");
    for number in 1..count {
        let made = number.saturating_sub(1);
        let declaration = format!(in rt.alloc(); " xmlns:ns{made}=\"u{number}\"").expect(
            rt, "memory",
        );
        push(rt, &mut text, declaration.as_str());
    }
    push(rt, &mut text, " p:k=\"v\"");
    for number in 1..count {
        let made = number.saturating_sub(1);
        let attribute = format!(in rt.alloc(); " ns{made}:k=\"v\"").expect(rt, "memory");
        push(rt, &mut text, attribute.as_str());
    }
    push(rt, &mut text, "/>");
    text
}

#[test]
fn many_prefixes_are_made(rt: HostRuntime) {
    let tree = crowded(&rt, 10_000);
    assert!(rt; is_written(&rt, &tree, crowded_text(&rt, 10_000).as_str()));
    drop(tree);
}
