// What trees tell of themselves, and what their copies share.
use crate::made::{document, list_of};
use std::alloc::AllocGlobal;
use std::process::Abort;
use xt_names::List;
use xt_tree::{
    Attribute, Attrs, Kids, Kind, Node, Tree, copy_attribute_list, copy_attrs_list, copy_kids_list,
    copy_node_list, copy_tree_list, same_node,
};

pub(crate) const SAMPLE: &str = "<a x=\"1\" y=\"2\">t<b>u</b><!--c--><?p d?></a>";

// Whether the tree is the one of the sample.
fn is_sample(rt: &(impl Abort + AllocGlobal), tree: &Tree) -> bool {
    let value = tree.string_value(rt.alloc()).expect(rt, "memory");
    let is_value = value.is("tu");
    drop(value);
    is_value && tree.size() == 9 && tree.height() == 2 && tree.kind() == Kind::Doc
}

#[test]
fn a_tree_knows_itself(rt: HostRuntime) {
    let tree = document(&rt, SAMPLE);
    assert!(rt; is_sample(&rt, &tree) && tree.is_sound());
    assert_eq!(rt; tree.depth(), 3);
    assert!(rt; matches!(tree.kid(0), Some(root) if root.attributes().len() == 2));
    drop(tree);
}

#[test]
fn trees_of_a_list_are_copied(rt: HostRuntime) {
    let trees = list_of(&rt, document(&rt, SAMPLE));
    let copy = copy_tree_list(&trees).expect(&rt, "memory");
    assert!(rt; matches!(copy.as_slice(), [only] if is_sample(&rt, only)));
    drop(copy);
    drop(trees);
}

#[test]
fn children_of_a_list_are_copied(rt: HostRuntime) {
    let trees = list_of(&rt, document(&rt, SAMPLE));
    let kids = list_of(&rt, Kids::make(rt.alloc(), trees).expect(&rt, "memory"));
    let copy = copy_kids_list(&kids).expect(&rt, "memory");
    assert!(rt; matches!(copy.as_slice(), [only] if is_list_of_sample(&rt, only.as_slice())));
    drop(copy);
    drop(kids);
}

fn is_list_of_sample(rt: &(impl Abort + AllocGlobal), trees: &[Tree]) -> bool {
    matches!(trees, [only] if is_sample(rt, only))
}

// `x="1" y="2"`
fn attributes(rt: &(impl Abort + AllocGlobal)) -> List<Attribute> {
    let tree = document(rt, SAMPLE);
    let mut attributes = List::new(rt.alloc());
    for attribute in tree.kid(0).expect(rt, "a root").attributes() {
        let copy = attribute.copy().expect(rt, "memory");
        attributes.push(copy).expect(rt, "memory");
    }
    drop(tree);
    attributes
}

fn are_attributes(attributes: &[Attribute]) -> bool {
    match attributes {
        [x, y] => x.name.local.is("x")
            && x.value.is("1")
            && y.name.local.is("y")
            && y.value.is("2"),
        _ => false,
    }
}

#[test]
fn attributes_of_a_list_are_copied(rt: HostRuntime) {
    let list = attributes(&rt);
    let copy = copy_attribute_list(&list).expect(&rt, "memory");
    assert!(rt; are_attributes(copy.as_slice()));
    drop(copy);
    drop(list);
}

#[test]
fn lists_of_attributes_are_copied(rt: HostRuntime) {
    let attrs = Attrs::make(rt.alloc(), attributes(&rt)).expect(&rt, "memory");
    let list = list_of(&rt, attrs);
    let copy = copy_attrs_list(&list).expect(&rt, "memory");
    assert!(rt; matches!(copy.as_slice(), [only] if are_attributes(only.as_slice())));
    drop(copy);
    drop(list);
}

#[test]
fn nodes_of_a_list_are_copied(rt: HostRuntime) {
    let node = Node::root_of(rt.alloc(), 7, document(&rt, SAMPLE)).expect(&rt, "memory");
    let nodes = list_of(&rt, node);
    let copy = copy_node_list(&nodes).expect(&rt, "memory");
    assert!(rt; are_same_nodes(copy.as_slice(), nodes.as_slice()));
    drop(copy);
    drop(nodes);
}

fn are_same_nodes(copies: &[Node], nodes: &[Node]) -> bool {
    match (copies, nodes) {
        ([copy], [node]) => same_node(copy, node) && copy.tree().size() == 9,
        _ => false,
    }
}

// An element with so many attributes.
fn crowded(rt: &(impl Abort + AllocGlobal), count: u32) -> Tree {
    let mut text = String::from_str(rt.alloc(), "<a").expect(rt, "memory");
    for i in 0..count {
        let attribute = format!(in rt.alloc(); " n{i}=''").expect(rt, "memory");
        text.push_str(attribute.as_str()).expect(rt, "memory");
    }
    text.push_str("/>").expect(rt, "memory");
    document(rt, text.as_str())
}

// A copy of all attributes for each copy would take ten thousand million steps.
#[test]
fn copies_share_the_tree(rt: HostRuntime) {
    let tree = crowded(&rt, 100_000);
    let mut copies = List::new(rt.alloc());
    for _ in 0..100_000 {
        copies
            .push(tree.copy().expect(&rt, "memory"))
            .expect(&rt, "memory");
    }
    assert!(rt; copies.as_slice().iter().all(|copy| copy.size() == 100_002));
    drop(copies);
    drop(tree);
}
