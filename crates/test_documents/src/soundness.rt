// Which trees are sound.
use crate::made::{attribute, document, element, list_of, name, push, repeated, text, with};
use std::alloc::AllocGlobal;
use std::process::Abort;
use xt_names::List;
use xt_tree::{Attribute, Kids, Tree, names_differ};

fn is_sound(tree: Tree) -> bool {
    let is_sound = tree.is_sound();
    drop(tree);
    is_sound
}

fn document_of(rt: &(impl Abort + AllocGlobal), kids: List<Tree>) -> Tree {
    Tree::Doc(Kids::make(rt.alloc(), kids).expect(rt, "memory"))
}

// So many elements in one another.
fn nested(rt: &(impl Abort + AllocGlobal), levels: usize) -> Tree {
    let mut text = repeated(rt, "<a>", levels);
    let ends = repeated(rt, "</a>", levels);
    push(rt, &mut text, ends.as_str());
    document(rt, text.as_str())
}

// The root of the document in one more element.
fn higher(rt: &(impl Abort + AllocGlobal), tree: Tree) -> Tree {
    let root = tree.kid(0).expect(rt, "a root").copy().expect(rt, "memory");
    drop(tree);
    let name = name(rt, "", "", "a");
    let element = element(rt, name, List::new(rt.alloc()), list_of(rt, root));
    document_of(rt, list_of(rt, element))
}

#[test]
fn the_height_is_limited(rt: HostRuntime) {
    let highest = nested(&rt, 2000);
    assert!(rt; highest.height() == 2000 && highest.is_sound());
    let higher = higher(&rt, highest);
    assert!(rt; higher.height() == 2001 && !higher.is_sound());
    drop(higher);
}

fn local_attribute(rt: &(impl Abort + AllocGlobal), local: &str) -> Attribute {
    attribute(rt, name(rt, "", "", local), "")
}

// Attributes of the names n0, n1 and so on.
fn numbered(rt: &(impl Abort + AllocGlobal), count: u32) -> List<Attribute> {
    let mut attributes = List::new(rt.alloc());
    for i in 0..count {
        let local = format!(in rt.alloc(); "n{i}").expect(rt, "memory");
        attributes
            .push(local_attribute(rt, local.as_str()))
            .expect(rt, "memory");
    }
    attributes
}

// So many attributes, of which two have one name.
fn doubled(rt: &(impl Abort + AllocGlobal), count: u32) -> List<Attribute> {
    with(rt, numbered(rt, count), local_attribute(rt, "n7"))
}

fn differ(rt: &(impl Abort + AllocGlobal), attributes: List<Attribute>) -> bool {
    let differ = names_differ(rt.alloc(), attributes.as_slice()).expect(rt, "memory");
    drop(attributes);
    differ
}

// To compare each pair of a hundred thousand would take ten thousand million steps.
#[test]
fn names_of_many_attributes_are_compared(rt: HostRuntime) {
    for count in [20, 100_000] {
        assert!(rt; differ(&rt, numbered(&rt, count)));
        assert!(rt; !differ(&rt, doubled(&rt, count)));
    }
}

fn is_element_sound(rt: &(impl Abort + AllocGlobal), attributes: List<Attribute>) -> bool {
    let name = name(rt, "", "", "a");
    is_sound(element(rt, name, attributes, List::new(rt.alloc())))
}

#[test]
fn no_two_attributes_have_one_name(rt: HostRuntime) {
    for count in [20, 200] {
        assert!(rt; is_element_sound(&rt, numbered(&rt, count)));
        assert!(rt; !is_element_sound(&rt, doubled(&rt, count)));
    }
}

// Targets and data, and whether an instruction may have them.
const INSTRUCTIONS: [(&str, &str, bool); 5] = [
    ("xmlp", "d", true),
    ("XmL", "d", false),
    ("p:q", "d", false),
    ("p", "a?>b", false),
    ("p", " d", false),
];

#[test]
fn instructions_are_judged(rt: HostRuntime) {
    for (target, data, sound) in INSTRUCTIONS {
        let tree = Tree::Pi(text(&rt, target), text(&rt, data));
        assert_eq!(rt; is_sound(tree), sound, "{target} {data}");
    }
}

#[test]
fn comments_are_judged(rt: HostRuntime) {
    for (content, sound) in [("a-b", true), ("a--b", false), ("a-", false)] {
        let tree = Tree::Comment(text(&rt, content));
        assert_eq!(rt; is_sound(tree), sound, "{content}");
    }
}

#[test]
fn no_text_stands_beside_a_text(rt: HostRuntime) {
    let first = list_of(&rt, Tree::Text(text(&rt, "a")));
    let texts = with(&rt, first, Tree::Text(text(&rt, "b")));
    assert!(rt; !is_sound(document_of(&rt, texts)));
}

#[test]
fn no_attribute_is_named_xmlns(rt: HostRuntime) {
    let tree = Tree::Attr(name(&rt, "", "", "xmlns"), text(&rt, "u"));
    assert!(rt; !is_sound(tree));
}
