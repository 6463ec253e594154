// Nodes that are collected, and what predicates keep of them (XPath 2.0, 3.2.1 and 3.2.2).
//
// The children `b` of the element `a` are at 0, 2 and 4; the first two have the attribute `k`.
use crate::asked::{kept_items, kept_nodes, quiet_seq};
use crate::made::{node_of, sample};
use crate::walks::{cursor_from, is_at};
use crate::written::{expr_of, predicates_of, test_of};
use node_axes::step_walks::next_hit;
use quiet_eval::quiet_places::{is_place_free, is_size_free};
use quiet_eval::{hits, hits_ahead};
use std::alloc::AllocGlobal;
use std::process::Abort;
use xdm_items::ItemList;
use xt_tree::{Node, Tree};
use xt_types::Axis;

fn stands_at(node: Option<&Node>, place: usize) -> bool {
    match node {
        Some(node) => matches!(node.path(), [.., last] if *last == place),
        None => false,
    }
}

// Whether the nodes stand at these places below their parents.
fn are_nodes(nodes: Vec<Node>, places: &[usize]) -> bool {
    let mut are = nodes.len() == places.len();
    for i in 0..places.len() {
        are = are && stands_at(nodes.as_slice().get(i), places[i]);
    }
    drop(nodes);
    are
}

fn are_items(items: ItemList, places: &[usize]) -> bool {
    let mut are = items.len() == places.len();
    for i in 0..places.len() {
        are = are && is_at(items.as_slice().get(i), places[i]);
    }
    drop(items);
    are
}

// The elements `b` on the axis, in its order.
fn hits_from(rt: &(impl Abort + AllocGlobal), tree: &Tree, from: &str, axis: Axis) -> Vec<Node> {
    let node = node_of(rt, tree, from);
    let test = test_of(rt, "b");
    let nodes = hits(rt.alloc(), axis, &test, &node).expect(rt, "memory");
    drop(test);
    drop(node);
    nodes
}

#[test]
fn nodes_that_pass_a_test(rt: HostRuntime) {
    let tree = sample(&rt);
    let down = hits_from(&rt, &tree, "0", Axis::Child);
    assert!(rt; are_nodes(down, &[0, 2, 4]));
    let back = hits_from(&rt, &tree, "07", Axis::PrecedingSibling);
    assert!(rt; are_nodes(back, &[4, 2, 0]));
    let none = hits_from(&rt, &tree, "01", Axis::Child);
    assert!(rt; are_nodes(none, &[]));
    drop(tree);
}

#[test]
fn nodes_that_a_cursor_has_still_before_it(rt: HostRuntime) {
    let tree = sample(&rt);
    let mut cursor = cursor_from(&rt, &tree, "0", Axis::Child);
    let first = next_hit(&mut cursor).expect(&rt, "memory");
    assert!(rt; stands_at(first.as_ref(), 0));
    drop(first);
    let rest = hits_ahead(rt.alloc(), &mut cursor).expect(&rt, "memory");
    assert!(rt; are_nodes(rest, &[2, 4]));
    drop(cursor);
    drop(tree);
}

// The predicates, and the places of the children that they keep.
const KEPT: [(&str, &[usize]); 7] = [
    ("", &[0, 2, 4]),
    ("[last]", &[4]),
    ("[@k][last]", &[2]),
    ("[last][@k]", &[]),
    ("[position,last,<][last]", &[2]),
    ("[2][1]", &[2]),
    ("[@k,not]", &[4]),
];

#[test]
fn nodes_that_predicates_keep_in_turn(rt: HostRuntime) {
    let tree = sample(&rt);
    for (words, places) in KEPT {
        let tests = predicates_of(&rt, words);
        let nodes = hits_from(&rt, &tree, "0", Axis::Child);
        let kept = kept_nodes(&rt, tests.as_slice(), nodes);
        drop(tests);
        assert!(rt; are_nodes(kept, places), "{words}");
    }
    drop(tree);
}

#[test]
fn items_that_predicates_keep_in_turn(rt: HostRuntime) {
    let tree = sample(&rt);
    for (words, places) in KEPT {
        let tests = predicates_of(&rt, words);
        let cursor = cursor_from(&rt, &tree, "0", Axis::Child);
        let kept = kept_items(&rt, cursor, tests.as_slice());
        drop(tests);
        assert!(rt; are_items(kept, places), "{words}");
    }
    let tests = predicates_of(&rt, "[last]");
    let back = cursor_from(&rt, &tree, "07", Axis::PrecedingSibling);
    let kept = kept_items(&rt, back, tests.as_slice());
    drop(tests);
    assert!(rt; are_items(kept, &[0]));
    drop(tree);
}

#[test]
fn sequences_of_what_predicates_keep(rt: HostRuntime) {
    let tree = sample(&rt);
    for (words, places) in KEPT {
        let cursor = cursor_from(&rt, &tree, "0", Axis::Child);
        let mut seq = quiet_seq(&rt, cursor, predicates_of(&rt, words));
        let count = seq.len().expect(&rt, "memory");
        assert_eq!(rt; count, i64::try_from(places.len()).ok(), "{words}");
        let items = seq.to_list(rt.alloc()).expect(&rt, "memory");
        assert!(rt; are_items(items, places), "{words}");
    }
    let back = cursor_from(&rt, &tree, "07", Axis::PrecedingSibling);
    let mut seq = quiet_seq(&rt, back, predicates_of(&rt, "[@k]"));
    let second = seq.at(2).expect(&rt, "memory");
    assert!(rt; is_at(second.as_ref(), 0));
    drop(second);
    let sorted = seq.in_document_order(rt.alloc()).expect(&rt, "memory");
    let items = sorted.to_list(rt.alloc()).expect(&rt, "memory");
    assert!(rt; are_items(items, &[0, 2]));
    drop(tree);
}

// The predicates that look at no position, and those that do not look at how many nodes there are.
#[test]
fn what_predicates_look_at(rt: HostRuntime) {
    let cases = [
        ("@k", true, true),
        ("true", true, true),
        ("@k,1,=", true, true),
        ("b,count,1,=", true, true),
        ("1,[]b", true, true),
        ("last,[]b,not", true, true),
        ("2", false, true),
        ("position,2,=", false, true),
        ("@k,position,2,=,and", false, true),
        ("@k,position,2,=,or", false, true),
        ("last", false, false),
        ("last,3,=", false, false),
        ("position,last,=", false, false),
        ("position,last,=,not", false, false),
        ("@k,last,3,=,and", false, false),
    ];
    for (words, place_free, size_free) in cases {
        let e = expr_of(&rt, words);
        let found = (is_place_free(&e), is_size_free(&e));
        drop(e);
        assert!(rt; found == (place_free, size_free), "{words}");
    }
}
