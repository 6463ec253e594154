// The nodes of a tree: what they are, what stands around them, and their order.
use crate::made::document;
use crate::trees::SAMPLE;
use std::alloc::AllocGlobal;
use std::cmp::Ordering;
use std::process::Abort;
use xt_names::List;
use xt_tree::{Kind, Node, order, order_all, same_node};

// The nodes of the sample as one walk meets them: the path, the place among attributes, the kind,
// how many children and attributes there are, the string value, and the size of the subtree.
const WALK: [(&[usize], Option<usize>, Kind, usize, usize, &str, u64); 9] = [
    (&[], None, Kind::Doc, 1, 0, "tu", 9),
    (&[0], None, Kind::Elem, 4, 2, "tu", 8),
    (&[0], Some(0), Kind::Attr, 0, 0, "1", 1),
    (&[0], Some(1), Kind::Attr, 0, 0, "2", 1),
    (&[0, 0], None, Kind::Text, 0, 0, "t", 1),
    (&[0, 1], None, Kind::Elem, 1, 0, "u", 2),
    (&[0, 1, 0], None, Kind::Text, 0, 0, "u", 1),
    (&[0, 2], None, Kind::Comment, 0, 0, "c", 1),
    (&[0, 3], None, Kind::Pi, 0, 0, "d", 1),
];

// Places that the sample does not have.
const NOWHERE: [(&[usize], Option<usize>); 4] = [
    (&[1], None),
    (&[0, 4], None),
    (&[0], Some(2)),
    (&[0, 0], Some(0)),
];

fn node_at(
    rt: &(impl Abort + AllocGlobal),
    path: &[usize],
    attribute: Option<usize>,
) -> Option<Node> {
    let tree = document(rt, SAMPLE);
    Node::at_place(rt.alloc(), 7, tree, path, attribute).expect(rt, "memory")
}

// The node of the sample that the walk meets at this place.
fn node(rt: &(impl Abort + AllocGlobal), at: usize) -> Node {
    let (path, attribute, _, _, _, _, _) = WALK[at % 9];
    node_at(rt, path, attribute).expect(rt, "a place of the sample")
}

#[test]
fn nodes_know_their_places(rt: HostRuntime) {
    for (path, attribute, kind, children, attributes, _, _) in WALK {
        let node = node_at(&rt, path, attribute).expect(&rt, "a place of the sample");
        assert_eq!(rt; node.number(), 7);
        assert!(rt; node.path() == path && node.attribute_place() == attribute);
        assert!(rt; node.kind() == kind && node.tree().size() == 9);
        assert_eq!(rt; node.child_count(), children);
        assert_eq!(rt; node.attribute_count(), attributes);
        drop(node);
    }
}

#[test]
fn no_node_stands_outside_the_tree(rt: HostRuntime) {
    for (path, attribute) in NOWHERE {
        let node = node_at(&rt, path, attribute);
        assert!(rt; node.is_none());
        drop(node);
    }
}

#[test]
fn nodes_give_trees_and_texts(rt: HostRuntime) {
    for (path, attribute, kind, _, _, value, size) in WALK {
        let node = node_at(&rt, path, attribute).expect(&rt, "a place of the sample");
        let text = node.string_value(rt.alloc()).expect(&rt, "memory");
        assert!(rt; text.is(value));
        let tree = node.subtree().expect(&rt, "memory");
        assert!(rt; tree.kind() == kind && tree.size() == size);
        drop(tree);
        drop(text);
        drop(node);
    }
}

// Whether the node there, if any is wanted, has this path and place among attributes.
fn is_at(node: Option<Node>, path: &[usize], attribute: Option<usize>) -> bool {
    match node {
        Some(node) => {
            let is_there = node.path() == path && node.attribute_place() == attribute;
            drop(node);
            is_there
        }
        None => false,
    }
}

#[test]
fn nodes_give_the_nodes_around_them(rt: HostRuntime) {
    let a = node(&rt, 1);
    assert!(rt; is_at(a.child(3).expect(&rt, "memory"), &[0, 3], None));
    assert!(rt; is_at(a.attribute(1).expect(&rt, "memory"), &[0], Some(1)));
    assert!(rt; is_at(a.parent().expect(&rt, "memory"), &[], None));
    drop(a);
    let y = node(&rt, 3);
    assert!(rt; is_at(y.parent().expect(&rt, "memory"), &[0], None));
    drop(y);
    let u = node(&rt, 6);
    assert!(rt; is_at(u.parent().expect(&rt, "memory"), &[0, 1], None));
    drop(u);
}

fn is_none(node: Option<Node>) -> bool {
    let is_none = node.is_none();
    drop(node);
    is_none
}

#[test]
fn nodes_give_no_node_past_their_ends(rt: HostRuntime) {
    let a = node(&rt, 1);
    assert!(rt; is_none(a.child(4).expect(&rt, "memory")));
    assert!(rt; is_none(a.attribute(2).expect(&rt, "memory")));
    drop(a);
    let y = node(&rt, 3);
    assert!(rt; is_none(y.child(0).expect(&rt, "memory")));
    drop(y);
    let root = node(&rt, 0);
    assert!(rt; is_none(root.parent().expect(&rt, "memory")));
    drop(root);
}

#[test]
fn elements_and_attributes_have_names(rt: HostRuntime) {
    let a = node(&rt, 1);
    assert!(rt; matches!(a.name(), Some(name) if name.local.is("a")));
    drop(a);
    let y = node(&rt, 3);
    assert!(rt; matches!(y.name(), Some(name) if name.local.is("y")));
    drop(y);
    let c = node(&rt, 7);
    assert!(rt; c.name().is_none() && c.target().is_none());
    drop(c);
    let p = node(&rt, 8);
    assert!(rt; p.name().is_none() && matches!(p.target(), Some(target) if target.is("p")));
    drop(p);
}

#[test]
fn nodes_are_copied(rt: HostRuntime) {
    for (path, attribute, _, _, _, _, _) in WALK {
        let node = node_at(&rt, path, attribute).expect(&rt, "a place of the sample");
        let copy = node.copy().expect(&rt, "memory");
        assert!(rt; same_node(&node, &copy) && copy.tree().size() == 9);
        drop(copy);
        drop(node);
    }
}

// All nodes of the sample, as one walk meets them.
fn walk(rt: &(impl Abort + AllocGlobal)) -> List<Node> {
    let mut walk = List::new(rt.alloc());
    for at in 0..9 {
        walk.push(node(rt, at)).expect(rt, "memory");
    }
    walk
}

#[test]
fn nodes_stand_in_document_order(rt: HostRuntime) {
    let walk = walk(&rt);
    for (i, a) in walk.as_slice().iter().enumerate() {
        for (j, b) in walk.as_slice().iter().enumerate() {
            assert_eq!(rt; order(a, b), Some(i.cmp(&j)));
            assert_eq!(rt; order_all(a, b), i.cmp(&j));
            assert_eq!(rt; same_node(a, b), i == j);
        }
    }
    drop(walk);
}

#[test]
fn numbers_count_before_places(rt: HostRuntime) {
    let first = Node::root_of(rt.alloc(), 6, document(&rt, SAMPLE)).expect(&rt, "memory");
    let second = node(&rt, 0);
    assert!(rt; order(&first, &second).is_none());
    assert_eq!(rt; order_all(&first, &second), Ordering::Less);
    assert_eq!(rt; order_all(&second, &first), Ordering::Greater);
    drop(second);
    drop(first);
}
