// Trees and nodes made for a test, which ends where memory runs out.
use std::alloc::AllocGlobal;
use std::process::Abort;
use xt_names::{List, Name, Text};
use xt_tree::{Attribute, Attrs, Kids, Node, Tree};

pub(crate) fn text(rt: &(impl Abort + AllocGlobal), s: &str) -> Text {
    Text::make(rt.alloc(), s).expect(rt, "memory")
}

pub(crate) fn with<T: Drop>(
    rt: &(impl Abort + AllocGlobal),
    mut items: List<T>,
    item: T,
) -> List<T> {
    items.push(item).expect(rt, "memory");
    items
}

fn name(rt: &(impl Abort + AllocGlobal), local: &str) -> Name {
    Name {
        prefix: text(rt, ""),
        uri: text(rt, ""),
        local: text(rt, local),
    }
}

fn attribute(
    rt: &(impl Abort + AllocGlobal),
    attributes: List<Attribute>,
    local: &str,
    value: &str,
) -> List<Attribute> {
    let made = Attribute {
        name: name(rt, local),
        value: text(rt, value),
    };
    with(rt, attributes, made)
}

fn element(
    rt: &(impl Abort + AllocGlobal),
    local: &str,
    attributes: List<Attribute>,
    kids: List<Tree>,
) -> Tree {
    Tree::Elem(
        name(rt, local),
        Attrs::make(rt.alloc(), attributes).expect(rt, "memory"),
        Kids::make(rt.alloc(), kids).expect(rt, "memory"),
    )
}

// An element with one text, and with the attribute `k` where a value is given.
fn leaf(rt: &(impl Abort + AllocGlobal), local: &str, k: &str, content: &str) -> Tree {
    let mut attributes = List::new(rt.alloc());
    if !k.is_empty() {
        attributes = attribute(rt, attributes, "k", k);
    }
    let mut kids = List::new(rt.alloc());
    if !content.is_empty() {
        kids = with(rt, kids, Tree::Text(text(rt, content)));
    }
    element(rt, local, attributes, kids)
}

// `<d><b>9</b><e><b>deep</b></e></d>`
fn nested(rt: &(impl Abort + AllocGlobal)) -> Tree {
    let inner = with(rt, List::new(rt.alloc()), leaf(rt, "b", "", "deep"));
    let e = element(rt, "e", List::new(rt.alloc()), inner);
    let first = with(rt, List::new(rt.alloc()), leaf(rt, "b", "", "9"));
    let kids = with(rt, first, e);
    element(rt, "d", List::new(rt.alloc()), kids)
}

// The children 0 to 3: `<b k="m">one</b><c/><b k="n">two</b><!--t-->`
fn front(rt: &(impl Abort + AllocGlobal)) -> List<Tree> {
    let one = with(rt, List::new(rt.alloc()), leaf(rt, "b", "m", "one"));
    let two = with(rt, one, leaf(rt, "c", "", ""));
    let three = with(rt, two, leaf(rt, "b", "n", "two"));
    with(rt, three, Tree::Comment(text(rt, "t")))
}

// The document of an `<a x="1" y="t">` with the children 0 to 7: these four, `<b/>`, `<?go?>`, the
// element `d`, and the text `tail`.
pub(crate) fn sample(rt: &(impl Abort + AllocGlobal)) -> Tree {
    let five = with(rt, front(rt), leaf(rt, "b", "", ""));
    let six = with(rt, five, Tree::Pi(text(rt, "go"), text(rt, "")));
    let seven = with(rt, six, nested(rt));
    let kids = with(rt, seven, Tree::Text(text(rt, "tail")));
    let x = attribute(rt, List::new(rt.alloc()), "x", "1");
    let whole = element(rt, "a", attribute(rt, x, "y", "t"), kids);
    let top = with(rt, List::new(rt.alloc()), whole);
    Tree::Doc(Kids::make(rt.alloc(), top).expect(rt, "memory"))
}

// The document of an `a` with so many children `<b k="m">one</b>`, and a `c` after them.
pub(crate) fn many(rt: &(impl Abort + AllocGlobal), count: usize) -> Tree {
    let mut kids = List::new(rt.alloc());
    for _ in 0..count {
        kids = with(rt, kids, leaf(rt, "b", "m", "one"));
    }
    let kids = with(rt, kids, leaf(rt, "c", "", ""));
    let whole = element(rt, "a", List::new(rt.alloc()), kids);
    let top = with(rt, List::new(rt.alloc()), whole);
    Tree::Doc(Kids::make(rt.alloc(), top).expect(rt, "memory"))
}

// The document of so many elements `a`, one inside of the other.
pub(crate) fn nested_in_each_other(rt: &(impl Abort + AllocGlobal), levels: usize) -> Tree {
    let mut kids = List::new(rt.alloc());
    for _ in 0..levels {
        let whole = element(rt, "a", List::new(rt.alloc()), kids);
        kids = with(rt, List::new(rt.alloc()), whole);
    }
    Tree::Doc(Kids::make(rt.alloc(), kids).expect(rt, "memory"))
}

fn digit(c: char) -> usize {
    match c {
        '0' => 0,
        '1' => 1,
        '2' => 2,
        '3' => 3,
        '4' => 4,
        '5' => 5,
        '6' => 6,
        _ => 7,
    }
}

// The node at the place: a digit for each child, and `@` with a digit for an attribute.
pub(crate) fn node_of(rt: &(impl Abort + AllocGlobal), tree: &Tree, place: &str) -> Node {
    let mut path = Vec::new(rt.alloc());
    let mut attribute = None;
    let mut is_attribute = false;
    for c in place.chars() {
        if c == '@' {
            is_attribute = true;
        } else if is_attribute {
            attribute = Some(digit(c));
        } else {
            path.push(digit(c)).expect(rt, "memory");
        }
    }
    let tree = tree.copy().expect(rt, "memory");
    node_at(rt, tree, path.as_slice(), attribute)
}

pub(crate) fn node_at(
    rt: &(impl Abort + AllocGlobal),
    tree: Tree,
    path: &[usize],
    attribute: Option<usize>,
) -> Node {
    let place = Node::at_place(rt.alloc(), 1, tree, path, attribute).expect(rt, "memory");
    place.expect(rt, "a node")
}
