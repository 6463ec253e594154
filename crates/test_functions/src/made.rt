// Values made for a test, which ends where memory runs out.
use std::alloc::AllocGlobal;
use std::process::Abort;
use xdm_items::{Item, ItemList};
use xt_atoms::Atom;
use xt_names::{List, Name, Text};
use xt_tree::{Attribute, Attrs, Kids, Node, Tree};

pub(crate) fn text(rt: &(impl Abort + AllocGlobal), s: &str) -> Text {
    Text::make(rt.alloc(), s).expect(rt, "memory")
}

pub(crate) fn word(rt: &(impl Abort + AllocGlobal), s: &str) -> Item {
    Item::Atom(Atom::Str(text(rt, s)))
}

pub(crate) fn number(number: i64) -> Item {
    Item::Atom(Atom::Int(number))
}

pub(crate) fn name(rt: &(impl Abort + AllocGlobal), prefix: &str, uri: &str, local: &str) -> Name {
    Name {
        prefix: text(rt, prefix),
        uri: text(rt, uri),
        local: text(rt, local),
    }
}

pub(crate) fn with<T: Drop>(
    rt: &(impl Abort + AllocGlobal),
    mut items: List<T>,
    item: T,
) -> List<T> {
    items.push(item).expect(rt, "memory");
    items
}

pub(crate) fn list_of<T: Drop>(rt: &(impl Abort + AllocGlobal), item: T) -> List<T> {
    with(rt, List::new(rt.alloc()), item)
}

pub(crate) fn one_item(rt: &(impl Abort + AllocGlobal), item: Item) -> ItemList {
    ItemList::one(rt.alloc(), item)
}

pub(crate) fn with_item(
    rt: &(impl Abort + AllocGlobal),
    mut items: ItemList,
    item: Item,
) -> ItemList {
    items.push(item).expect(rt, "memory");
    items
}

pub(crate) fn element(
    rt: &(impl Abort + AllocGlobal),
    name: Name,
    attributes: List<Attribute>,
    kids: List<Tree>,
) -> Tree {
    Tree::Elem(
        name,
        Attrs::make(rt.alloc(), attributes).expect(rt, "memory"),
        Kids::make(rt.alloc(), kids).expect(rt, "memory"),
    )
}

fn attributes(rt: &(impl Abort + AllocGlobal)) -> List<Attribute> {
    let k = Attribute {
        name: name(rt, "", "", "k"),
        value: text(rt, "1"),
    };
    let m = Attribute {
        name: name(rt, "p", "urn:p", "m"),
        value: text(rt, "x"),
    };
    with(rt, list_of(rt, k), m)
}

fn children(rt: &(impl Abort + AllocGlobal)) -> List<Tree> {
    let one = list_of(rt, Tree::Text(text(rt, "t")));
    let two = with(rt, one, Tree::Comment(text(rt, "c")));
    let three = with(rt, two, Tree::Pi(text(rt, "g"), text(rt, "d")));
    let leaf = element(
        rt,
        name(rt, "", "", "b"),
        List::new(rt.alloc()),
        List::new(rt.alloc()),
    );
    with(rt, three, leaf)
}

// the document of `<p:a xmlns:p="urn:p" k="1" p:m="x">t<!--c--><?g d?><b/></p:a>`
fn sample(rt: &(impl Abort + AllocGlobal)) -> Tree {
    let whole = element(
        rt,
        name(rt, "p", "urn:p", "a"),
        attributes(rt),
        children(rt),
    );
    Tree::Doc(Kids::make(rt.alloc(), list_of(rt, whole)).expect(rt, "memory"))
}

fn place_of(word: &str) -> (&'static [usize], Option<usize>) {
    match word {
        "a" => (&[0], None),
        "k" => (&[0], Some(0)),
        "m" => (&[0], Some(1)),
        "text" => (&[0, 0], None),
        "comment" => (&[0, 1], None),
        "pi" => (&[0, 2], None),
        "b" => (&[0, 3], None),
        _ => (&[], None),
    }
}

// the document itself, its element, an attribute or a child of that
pub(crate) fn node(rt: &(impl Abort + AllocGlobal), word: &str) -> Node {
    let (path, attribute) = place_of(word);
    let place = Node::at_place(rt.alloc(), 1, sample(rt), path, attribute).expect(rt, "memory");
    place.expect(rt, "a node")
}

// the arguments of a call with one, two and three of them
pub(crate) fn one(rt: &(impl Abort + AllocGlobal), a: ItemList) -> List<ItemList> {
    list_of(rt, a)
}

pub(crate) fn two(rt: &(impl Abort + AllocGlobal), a: ItemList, b: ItemList) -> List<ItemList> {
    with(rt, list_of(rt, a), b)
}
