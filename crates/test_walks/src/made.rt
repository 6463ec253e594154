// Trees and nodes made for a test, which ends where memory runs out.
use std::alloc::AllocGlobal;
use std::process::Abort;
use xt_names::{List, Name, Text};
use xt_tree::{Attribute, Attrs, Kids, Node, Tree};

pub(crate) fn text(rt: &(impl Abort + AllocGlobal), s: &str) -> Text {
    Text::make(rt.alloc(), s).expect(rt, "memory")
}

pub(crate) fn with<T: Drop>(
    rt: &(impl Abort + AllocGlobal),
    mut items: List<T>,
    item: T,
) -> List<T> {
    items.push(item).expect(rt, "memory");
    items
}

pub(crate) fn list_of<T: Drop>(rt: &(impl Abort + AllocGlobal), item: T) -> List<T> {
    with(rt, List::new(rt.alloc()), item)
}

fn name(rt: &(impl Abort + AllocGlobal), local: &str) -> Name {
    Name {
        prefix: text(rt, ""),
        uri: text(rt, ""),
        local: text(rt, local),
    }
}

fn element(
    rt: &(impl Abort + AllocGlobal),
    local: &str,
    attributes: List<Attribute>,
    kids: List<Tree>,
) -> Tree {
    Tree::Elem(
        name(rt, local),
        Attrs::make(rt.alloc(), attributes).expect(rt, "memory"),
        Kids::make(rt.alloc(), kids).expect(rt, "memory"),
    )
}

fn leaf(rt: &(impl Abort + AllocGlobal), local: &str) -> Tree {
    element(rt, local, List::new(rt.alloc()), List::new(rt.alloc()))
}

// the document of `<a x="1"><b/><c/><b/></a>`
fn sample(rt: &(impl Abort + AllocGlobal)) -> Tree {
    let x = Attribute {
        name: name(rt, "x"),
        value: text(rt, "1"),
    };
    let two = with(rt, list_of(rt, leaf(rt, "b")), leaf(rt, "c"));
    let kids = with(rt, two, leaf(rt, "b"));
    let whole = element(rt, "a", list_of(rt, x), kids);
    Tree::Doc(Kids::make(rt.alloc(), list_of(rt, whole)).expect(rt, "memory"))
}

pub(crate) fn node_at(
    rt: &(impl Abort + AllocGlobal),
    path: &[usize],
    attribute: Option<usize>,
) -> Node {
    let place = Node::at_place(rt.alloc(), 1, sample(rt), path, attribute).expect(rt, "memory");
    place.expect(rt, "a node")
}

// Adds the node's place: a `/`, the numbers of its path, and `@` for an attribute.
pub(crate) fn push_place(rt: &(impl Abort + AllocGlobal), out: &mut String, node: &Node) {
    out.push_str("/").expect(rt, "memory");
    for number in node.path() {
        let digits = format!(in rt.alloc(); "{number}").expect(rt, "memory");
        out.push_str(digits.as_str()).expect(rt, "memory");
        drop(digits);
    }
    if node.attribute_place().is_some() {
        out.push_str("@").expect(rt, "memory");
    }
}
