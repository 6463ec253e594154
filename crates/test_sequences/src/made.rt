// Sequences made for a test, which ends where memory runs out.
use lazy_seq::Seq;
use std::alloc::AllocGlobal;
use std::process::Abort;
use xdm_items::{Item, ItemList};
use xt_atoms::Atom;
use xt_names::{List, Name, Text};
use xt_tree::{Attrs, Kids, Node, Tree};

fn text(rt: &(impl Abort + AllocGlobal), s: &str) -> Text {
    Text::make(rt.alloc(), s).expect(rt, "memory")
}

// A name without prefix and uri.
fn name(rt: &(impl Abort + AllocGlobal), local: &str) -> Name {
    Name {
        prefix: text(rt, ""),
        uri: text(rt, ""),
        local: text(rt, local),
    }
}

fn element(rt: &(impl Abort + AllocGlobal), local: &str, kids: List<Tree>) -> Tree {
    Tree::Elem(
        name(rt, local),
        Attrs::make(rt.alloc(), List::new(rt.alloc())).expect(rt, "memory"),
        Kids::make(rt.alloc(), kids).expect(rt, "memory"),
    )
}

// The element `l` with so many children `a`.
pub(crate) fn wide(rt: &(impl Abort + AllocGlobal), count: u32) -> Node {
    let kid = element(rt, "a", List::new(rt.alloc()));
    let mut kids = List::new(rt.alloc());
    for _ in 0..count {
        let copy = kid.copy().expect(rt, "memory");
        kids.push(copy).expect(rt, "memory");
    }
    drop(kid);
    Node::root_of(rt.alloc(), 1, element(rt, "l", kids)).expect(rt, "memory")
}

// The child of the root at the place.
pub(crate) fn child(rt: &(impl Abort + AllocGlobal), root: &Node, place: usize) -> Node {
    match root.child(place).expect(rt, "memory") {
        Some(child) => child,
        None => panic!(rt; "no child"),
    }
}

// Whether the node is the child of the root at the place.
pub(crate) fn is_child(node: &Node, place: usize) -> bool {
    matches!(node.path(), [only] if *only == place)
}

pub(crate) fn is_integer(item: Option<&Item>, wanted: i64) -> bool {
    matches!(item, Some(Item::Atom(Atom::Int(number))) if *number == wanted)
}

pub(crate) fn items_of(rt: &(impl Abort + AllocGlobal), seq: Seq) -> ItemList {
    seq.to_list(rt.alloc()).expect(rt, "memory")
}
