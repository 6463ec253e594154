// Names under bindings: many of them, and such as hide others.
use crate::made::{document, push};
use doc_reader::{Scoped, read_scoped};
use std::alloc::AllocGlobal;
use std::process::Abort;
use xt_names::Binding;
use xt_tree::{Tree, tree_at};

// So many prefixes are declared by one tag.
const COUNT: u32 = 30_000;

// A tag that declares p0, p1 and so on.
fn declaring(rt: &(impl Abort + AllocGlobal)) -> String {
    let mut text = String::from_str(rt.alloc(), "<a").expect(rt, "memory");
    for n in 0..COUNT {
        let declaration = format!(in rt.alloc(); " xmlns:p{n}='u{n}'").expect(rt, "memory");
        push(rt, &mut text, declaration.as_str());
    }
    text
}

fn with_attributes(rt: &(impl Abort + AllocGlobal)) -> String {
    let mut text = declaring(rt);
    for n in 0..COUNT {
        let attribute = format!(in rt.alloc(); " p{n}:k='v'").expect(rt, "memory");
        push(rt, &mut text, attribute.as_str());
    }
    push(rt, &mut text, "/>");
    text
}

fn with_children(rt: &(impl Abort + AllocGlobal)) -> String {
    let mut text = declaring(rt);
    push(rt, &mut text, ">");
    for n in 0..COUNT {
        let child = format!(in rt.alloc(); "<p{n}:c/>").expect(rt, "memory");
        push(rt, &mut text, child.as_str());
    }
    push(rt, &mut text, "</a>");
    text
}

// A walk over the bindings for each name would take a thousand million steps.
#[test]
fn many_prefixes_on_attributes(rt: HostRuntime) {
    let tree = document(&rt, with_attributes(&rt).as_str());
    let root = tree.kid(0).expect(&rt, "a root");
    for (n, attribute) in root.attributes().iter().enumerate() {
        let uri = format!(in rt.alloc(); "u{n}").expect(&rt, "memory");
        assert!(rt; attribute.name.uri.is(uri.as_str()));
    }
    assert_eq!(rt; tree.size(), 30_002);
    drop(tree);
}

#[test]
fn many_prefixes_on_children(rt: HostRuntime) {
    let tree = document(&rt, with_children(&rt).as_str());
    let root = tree.kid(0).expect(&rt, "a root");
    for (n, child) in root.kids().iter().enumerate() {
        let uri = format!(in rt.alloc(); "u{n}").expect(&rt, "memory");
        assert!(rt; is_in(child, uri.as_str()));
    }
    assert_eq!(rt; tree.size(), 30_002);
    drop(tree);
}

fn is_in(node: &Tree, uri: &str) -> bool {
    matches!(node.name(), Some(name) if name.uri.is(uri))
}

// Texts, places of elements in them, and the namespaces of these.
const NAMESPACES: [(&str, &[usize], &str); 8] = [
    (
        "<a xmlns:p='u'><b xmlns:p='v'><p:c/></b><p:d/></a>",
        &[0, 0, 0],
        "v",
    ),
    (
        "<a xmlns:p='u'><b xmlns:p='v'><p:c/></b><p:d/></a>",
        &[0, 1],
        "u",
    ),
    ("<a xmlns='u'><b xmlns=''><c/></b><d/></a>", &[0, 0, 0], ""),
    ("<a xmlns='u'><b xmlns=''><c/></b><d/></a>", &[0, 1], "u"),
    ("<a xmlns='u'><b/></a>", &[0, 0], "u"),
    ("<p:a xmlns:p='u'/>", &[0], "u"),
    ("<p:a xmlns='u' xmlns:p='v'/>", &[0], "v"),
    ("<xml:a/>", &[0], "http://www.w3.org/XML/1998/namespace"),
];

#[test]
fn inner_bindings_hide_outer_ones(rt: HostRuntime) {
    for (text, path, uri) in NAMESPACES {
        let tree = document(&rt, text);
        let element = tree_at(&tree, path).expect(&rt, "a place of the tree");
        assert!(rt; is_in(element, uri), "{text}");
        drop(tree);
    }
}

fn scoped(rt: &(impl Abort + AllocGlobal), text: &str) -> Scoped {
    read_scoped(rt.alloc(), text.as_bytes()).expect(rt, "a document")
}

fn is_binding(binding: &Binding, prefix: &str, uri: &str) -> bool {
    binding.prefix.is(prefix) && binding.uri.is(uri)
}

#[test]
fn each_element_has_its_declarations(rt: HostRuntime) {
    let text = "<a xmlns='u'><b xmlns:p='v' xmlns:q='w' k=''/><c/></a>";
    let scoped = scoped(&rt, text);
    let [first, second, third] = scoped.declared.as_slice() else {
        panic!(rt; "one list for each element");
    };
    assert!(rt; matches!(first.as_slice(), [u] if is_binding(u, "", "u")));
    let [v, w] = second.as_slice() else {
        panic!(rt; "two declarations");
    };
    assert!(rt; is_binding(v, "p", "v") && is_binding(w, "q", "w"));
    assert!(rt; third.is_empty());
    drop(scoped);
}
