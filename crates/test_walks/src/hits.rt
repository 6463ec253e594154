// The nodes that a step meets, their positions and their order.
use crate::made::{node_at, push_place, text};
use node_axes::Cursor;
use node_axes::step_walks::{in_order, next_hit, raise, zeros};
use std::alloc::AllocGlobal;
use std::process::Abort;
use xt_types::{Axis, NameTest, Test};

// A test for the local name, for any name, or for any node.
fn test_of(rt: &(impl Abort + AllocGlobal), word: &str) -> Test {
    match word {
        "*" => Test::Named(NameTest::Any),
        "node()" => Test::Node,
        _ => Test::Named(NameTest::Local(text(rt, word))),
    }
}

fn cursor_at(
    rt: &(impl Abort + AllocGlobal),
    path: &[usize],
    attribute: Option<usize>,
    axis: Axis,
    word: &str,
) -> Cursor {
    let node = node_at(rt, path, attribute);
    let cursor = Cursor::new(rt.alloc(), &node, axis, test_of(rt, word)).expect(rt, "memory");
    drop(node);
    cursor
}

// The places of the hits to come, and a `.` for each call that gives none.
fn four_hits(rt: &(impl Abort + AllocGlobal), mut cursor: Cursor) -> String {
    let mut out = String::new(rt.alloc());
    for _ in 0..4 {
        match next_hit(&mut cursor).expect(rt, "memory") {
            None => out.push_str(".").expect(rt, "memory"),
            Some(node) => {
                push_place(rt, &mut out, &node);
                drop(node);
            }
        }
    }
    drop(cursor);
    out
}

#[test]
fn hits_of_an_axis(rt: HostRuntime) {
    let cases = [
        (Axis::Child, "b", "/00/02.."),
        (Axis::Child, "c", "/01..."),
        (Axis::Child, "x", "...."),
        (Axis::Attribute, "x", "/0@..."),
        (Axis::Descendant, "*", "/00/01/02."),
        (Axis::Ancestor, "*", "...."),
        (Axis::AncestorOrSelf, "node()", "/0/.."),
        (Axis::Parent, "node()", "/..."),
    ];
    for (axis, word, wanted) in cases {
        let found = four_hits(&rt, cursor_at(&rt, &[0], None, axis, word));
        assert_eq!(rt; found.as_str(), wanted, "{word}");
        drop(found);
    }
}

// A reverse axis gives the nearest node first.
#[test]
fn hits_before_the_last_child(rt: HostRuntime) {
    let cases = [
        (Axis::PrecedingSibling, "*", "/01/00.."),
        (Axis::PrecedingSibling, "b", "/00..."),
        (Axis::Preceding, "node()", "/01/00.."),
        (Axis::Ancestor, "node()", "/0/.."),
        (Axis::AncestorOrSelf, "*", "/02/0.."),
        (Axis::FollowingSibling, "*", "...."),
    ];
    for (axis, word, wanted) in cases {
        let found = four_hits(&rt, cursor_at(&rt, &[0, 2], None, axis, word));
        assert_eq!(rt; found.as_str(), wanted, "{word}");
        drop(found);
    }
}

// What is counted where a node has come to two predicates of three, and a second one to all.
#[test]
fn positions_are_counted(rt: HostRuntime) {
    let mut seen = zeros(rt.alloc(), 3).expect(&rt, "memory");
    raise(seen.as_mut_slice(), 2);
    assert!(rt; seen.as_slice() == [1, 1, 0].as_slice());
    let mut few = [4, 7];
    raise(&mut few, 9);
    assert!(rt; few == [5, 8]);
    drop(seen);
}

#[test]
fn nodes_in_document_order(rt: HostRuntime) {
    let mut nodes = Vec::new(rt.alloc());
    nodes
        .push(node_at(&rt, &[0, 2], None))
        .expect(&rt, "memory");
    nodes
        .push(node_at(&rt, &[0], Some(0)))
        .expect(&rt, "memory");
    nodes.push(node_at(&rt, &[0], None)).expect(&rt, "memory");
    nodes
        .push(node_at(&rt, &[0, 0], None))
        .expect(&rt, "memory");
    nodes
        .push(node_at(&rt, &[0, 2], None))
        .expect(&rt, "memory");
    nodes.push(node_at(&rt, &[], None)).expect(&rt, "memory");
    nodes.push(node_at(&rt, &[0], None)).expect(&rt, "memory");
    let sorted = in_order(nodes).expect(&rt, "memory");
    let mut out = String::new(rt.alloc());
    for node in sorted.as_slice() {
        push_place(&rt, &mut out, node);
    }
    drop(sorted);
    assert_eq!(rt; out.as_str(), "//0/0@/00/02");
    drop(out);
}
