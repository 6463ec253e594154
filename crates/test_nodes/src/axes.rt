// Axes: the nodes on each of them, and that no step over many nodes collects them.
ghost use Rattle.std.specs.Prelude.{◌≡◌, ◌<◌};

use crate::made::{document, element, list_of, list_of_two, name, text};
use node_axes::{Cursor, Steps};
use std::alloc::AllocGlobal;
use std::marker::Brand;
use std::process::Abort;
use std::sync::ledger::{Blank, Ledger};
use xt_names::List;
use xt_tree::{Attribute, Node, Tree};
use xt_types::{Axis, NameTest, Test};

fn attribute(rt: &(impl Abort + AllocGlobal), local: &str) -> Attribute {
    Attribute {
        name: name(rt, local),
        value: text(rt, "1"),
    }
}

// an element with the attributes `x` and `y`
fn marked(rt: &(impl Abort + AllocGlobal), local: &str, kids: List<Tree>) -> Tree {
    let attributes = list_of_two(rt, attribute(rt, "x"), attribute(rt, "y"));
    element(rt, local, attributes, kids)
}

fn leaf(rt: &(impl Abort + AllocGlobal), local: &str) -> Tree {
    marked(rt, local, List::new(rt.alloc()))
}

fn branch(rt: &(impl Abort + AllocGlobal), local: &str, first: &str, second: &str) -> Tree {
    marked(
        rt,
        local,
        list_of_two(rt, leaf(rt, first), leaf(rt, second)),
    )
}

// the document of `<a><b><d/><e/></b><c><f/><g/></c></a>`, each element with `x` and `y`
fn sample(rt: &(impl Abort + AllocGlobal)) -> Tree {
    let kids = list_of_two(rt, branch(rt, "b", "d", "e"), branch(rt, "c", "f", "g"));
    document(rt, list_of(rt, marked(rt, "a", kids)))
}

// Adds the name of the present node, or `/` where it has none.
fn push_present(rt: &(impl Abort + AllocGlobal), out: &mut String, cursor: &Cursor) {
    if let Some(node) = cursor.node().expect(rt, "memory") {
        match node.name() {
            Some(name) => out.push_str(name.local.as_str()).expect(rt, "memory"),
            None => out.push_str("/").expect(rt, "memory"),
        }
        drop(node);
    }
}

// the names of the nodes to come, on a counter of its own
fn names_to_come<L: Ledger, R: Abort + AllocGlobal>(
    rt: &R,
    blank: Blank,
    cursor: &mut Cursor,
) -> String
    requires name { blank.name ≡ L.name }
    requires parts { blank.parts ≡ L.parts }
    requires one { 0 < blank.parts }
{
    let mut steps = Steps::<L>::begin(blank);
    let mut out = String::new(rt.alloc());
    for _ in 0..20 {
        if cursor.advance(&mut steps) {
            push_present(rt, &mut out, cursor);
        }
    }
    out
}

fn names_left<R: Abort + AllocGlobal>(rt: &R, mut cursor: Cursor) -> String {
    let names = names_to_come::<Brand, R>(rt, Blank::new(1), &mut cursor);
    drop(cursor);
    names
}

fn cursor_at(
    rt: &(impl Abort + AllocGlobal),
    path: &[usize],
    attribute: Option<usize>,
    axis: Axis,
) -> Cursor {
    let place = Node::at_place(rt.alloc(), 1, sample(rt), path, attribute).expect(rt, "memory");
    let node = place.expect(rt, "a node");
    let cursor = Cursor::new(rt.alloc(), &node, axis, Test::Node).expect(rt, "memory");
    drop(node);
    cursor
}

fn is_walk<R: Abort + AllocGlobal>(rt: &R, cursor: Cursor, names: &str) -> bool {
    let found = names_left(rt, cursor);
    found.as_str() == names
}

#[test]
fn walks_down(rt: HostRuntime) {
    assert!(rt; is_walk(&rt, cursor_at(&rt, &[0], None, Axis::Child), "bc"));
    assert!(rt; is_walk(&rt, cursor_at(&rt, &[0], None, Axis::Descendant), "bdecfg"));
    assert!(rt; is_walk(&rt, cursor_at(&rt, &[0, 1], None, Axis::Attribute), "xy"));
    assert!(rt; is_walk(&rt, cursor_at(&rt, &[0, 1], None, Axis::Itself), "c"));
    assert!(rt;
        is_walk(
            &rt,
            cursor_at(&rt, &[0, 1], None, Axis::DescendantOrSelf),
            "cfg"
        )
    );
}

#[test]
fn walks_on(rt: HostRuntime) {
    assert!(rt;
        is_walk(
            &rt,
            cursor_at(&rt, &[0, 0], None, Axis::FollowingSibling),
            "c"
        )
    );
    assert!(rt;
        is_walk(
            &rt,
            cursor_at(&rt, &[0, 0, 0], None, Axis::Following),
            "ecfg"
        )
    );
}

#[test]
fn walks_up(rt: HostRuntime) {
    assert!(rt; is_walk(&rt, cursor_at(&rt, &[0, 1, 0], None, Axis::Parent), "c"));
    assert!(rt; is_walk(&rt, cursor_at(&rt, &[0, 1, 0], None, Axis::Ancestor), "ca/"));
    assert!(rt;
        is_walk(
            &rt,
            cursor_at(&rt, &[0, 1, 0], None, Axis::AncestorOrSelf),
            "fca/"
        )
    );
}

#[test]
fn walks_back(rt: HostRuntime) {
    assert!(rt;
        is_walk(
            &rt,
            cursor_at(&rt, &[0, 1], None, Axis::PrecedingSibling),
            "b"
        )
    );
    assert!(rt;
        is_walk(
            &rt,
            cursor_at(&rt, &[0, 1, 0], None, Axis::Preceding),
            "edb"
        )
    );
}

#[test]
fn walks_from_an_attribute(rt: HostRuntime) {
    assert!(rt;
        is_walk(
            &rt,
            cursor_at(&rt, &[0, 0], Some(0), Axis::Following),
            "decfg"
        )
    );
    assert!(rt; is_walk(&rt, cursor_at(&rt, &[0, 1], Some(1), Axis::Ancestor), "ca/"));
    assert!(rt;
        is_walk(
            &rt,
            cursor_at(&rt, &[0, 1], Some(0), Axis::Preceding),
            "edb"
        )
    );
    assert!(rt;
        is_walk(
            &rt,
            cursor_at(&rt, &[0], Some(0), Axis::FollowingSibling),
            ""
        )
    );
}

#[test]
fn a_copy_goes_on_from_the_same_place(rt: HostRuntime) {
    let cursor = cursor_at(&rt, &[], None, Axis::Child);
    let copy = cursor.copy().expect(&rt, "memory");
    drop(cursor);
    assert!(rt; is_walk(&rt, copy, "a"));
}

// whether the cursor comes to a hit within a few steps, on a counter of its own
fn hits_soon<L: Ledger>(blank: Blank, cursor: &mut Cursor) -> bool
    requires name { blank.name ≡ L.name }
    requires parts { blank.parts ≡ L.parts }
    requires one { 0 < blank.parts }
{
    let mut steps = Steps::<L>::begin(blank);
    for _ in 0..3 {
        if cursor.advance(&mut steps) && cursor.is_hit() {
            return true;
        }
    }
    false
}

fn hits(rt: &(impl Abort + AllocGlobal), node: &Node, axis: Axis) -> bool {
    let test = Test::Named(NameTest::Any);
    let mut cursor = Cursor::new(rt.alloc(), node, axis, test).expect(rt, "memory");
    let hit = hits_soon::<Brand>(Blank::new(1), &mut cursor);
    drop(cursor);
    hit
}

const MANY: u32 = 100_000;

// a document whose element `a` has many children `b`
fn wide(rt: &(impl Abort + AllocGlobal)) -> Tree {
    let kid = leaf(rt, "b");
    let mut kids = List::new(rt.alloc());
    for _ in 0..MANY {
        kids.push(kid.copy().expect(rt, "memory"))
            .expect(rt, "memory");
    }
    drop(kid);
    document(rt, list_of(rt, marked(rt, "a", kids)))
}

// whether each of many walks from this place of the tree has a hit soon
fn always_hits(rt: &(impl Abort + AllocGlobal), tree: &Tree, path: &[usize], axis: Axis) -> bool {
    let copy = tree.copy().expect(rt, "memory");
    let place = Node::at_place(rt.alloc(), 1, copy, path, None).expect(rt, "memory");
    let node = place.expect(rt, "a node");
    let mut all = true;
    for _ in 0..MANY {
        all = hits(rt, &node, axis) && all;
    }
    drop(node);
    all
}

// Where a walk collected its nodes first, each of these would take some 10^10 steps.

#[test]
fn no_walk_down_collects_its_nodes(rt: HostRuntime) {
    let tree = wide(&rt);
    assert!(rt; always_hits(&rt, &tree, &[0], Axis::Child));
    assert!(rt; always_hits(&rt, &tree, &[], Axis::Descendant));
    assert!(rt; always_hits(&rt, &tree, &[], Axis::DescendantOrSelf));
    drop(tree);
}

#[test]
fn no_walk_at_the_node_or_on_collects_its_nodes(rt: HostRuntime) {
    let tree = wide(&rt);
    assert!(rt; always_hits(&rt, &tree, &[0], Axis::Itself));
    assert!(rt; always_hits(&rt, &tree, &[0], Axis::Attribute));
    assert!(rt; always_hits(&rt, &tree, &[0, 0], Axis::FollowingSibling));
    assert!(rt; always_hits(&rt, &tree, &[0, 0], Axis::Following));
    drop(tree);
}

#[test]
fn no_walk_up_collects_its_nodes(rt: HostRuntime) {
    let tree = wide(&rt);
    assert!(rt; always_hits(&rt, &tree, &[0, 99999], Axis::Parent));
    assert!(rt; always_hits(&rt, &tree, &[0, 99999], Axis::Ancestor));
    assert!(rt; always_hits(&rt, &tree, &[0, 99999], Axis::AncestorOrSelf));
    drop(tree);
}

#[test]
fn no_walk_back_collects_its_nodes(rt: HostRuntime) {
    let tree = wide(&rt);
    assert!(rt; always_hits(&rt, &tree, &[0, 99999], Axis::PrecedingSibling));
    assert!(rt; always_hits(&rt, &tree, &[0, 99999], Axis::Preceding));
    drop(tree);
}
