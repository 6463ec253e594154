// Trees and items made for a test, which ends where memory runs out, and what tests share.
use node_builder::{BuildFault, Builder, Duplicates};
use std::alloc::AllocGlobal;
use std::process::Abort;
use xdm_items::{Item, ItemList};
use xt_atoms::Atom;
use xt_names::{List, Name, Text};
use xt_tree::{Attribute, Attrs, Kids, Node, Tree};

pub(crate) const KEEP: Duplicates = Duplicates::KeepLast;

pub(crate) const REFUSE: Duplicates = Duplicates::Refuse;

pub(crate) fn text(rt: &(impl Abort + AllocGlobal), s: &str) -> Text {
    Text::make(rt.alloc(), s).expect(rt, "memory")
}

// a name without prefix and uri
pub(crate) fn name(rt: &(impl Abort + AllocGlobal), local: &str) -> Name {
    Name {
        prefix: text(rt, ""),
        uri: text(rt, ""),
        local: text(rt, local),
    }
}

pub(crate) fn with<T: Drop>(
    rt: &(impl Abort + AllocGlobal),
    mut items: List<T>,
    item: T,
) -> List<T> {
    items.push(item).expect(rt, "memory");
    items
}

pub(crate) fn list_of<T: Drop>(rt: &(impl Abort + AllocGlobal), item: T) -> List<T> {
    with(rt, List::new(rt.alloc()), item)
}

pub(crate) fn list_of_two<T: Drop>(
    rt: &(impl Abort + AllocGlobal),
    first: T,
    second: T,
) -> List<T> {
    with(rt, list_of(rt, first), second)
}

pub(crate) fn with_item(
    rt: &(impl Abort + AllocGlobal),
    mut items: ItemList,
    item: Item,
) -> ItemList {
    items.push(item).expect(rt, "memory");
    items
}

pub(crate) fn two_items(rt: &(impl Abort + AllocGlobal), first: Item, second: Item) -> ItemList {
    with_item(rt, ItemList::one(rt.alloc(), first), second)
}

pub(crate) fn text_tree(rt: &(impl Abort + AllocGlobal), s: &str) -> Tree {
    Tree::Text(text(rt, s))
}

pub(crate) fn element(
    rt: &(impl Abort + AllocGlobal),
    local: &str,
    attributes: List<Attribute>,
    kids: List<Tree>,
) -> Tree {
    Tree::Elem(
        name(rt, local),
        Attrs::make(rt.alloc(), attributes).expect(rt, "memory"),
        Kids::make(rt.alloc(), kids).expect(rt, "memory"),
    )
}

// an element without attributes
pub(crate) fn bare(rt: &(impl Abort + AllocGlobal), local: &str, kids: List<Tree>) -> Tree {
    element(rt, local, List::new(rt.alloc()), kids)
}

pub(crate) fn document(rt: &(impl Abort + AllocGlobal), kids: List<Tree>) -> Tree {
    Tree::Doc(Kids::make(rt.alloc(), kids).expect(rt, "memory"))
}

pub(crate) fn root(rt: &(impl Abort + AllocGlobal), tree: Tree) -> Node {
    Node::root_of(rt.alloc(), 7, tree).expect(rt, "memory")
}

pub(crate) fn word(rt: &(impl Abort + AllocGlobal), s: &str) -> Item {
    Item::Atom(Atom::Str(text(rt, s)))
}

pub(crate) fn text_item(rt: &(impl Abort + AllocGlobal), s: &str) -> Item {
    Item::Node(root(rt, text_tree(rt, s)))
}

pub(crate) fn attribute_item(rt: &(impl Abort + AllocGlobal), local: &str, value: &str) -> Item {
    Item::Node(root(rt, Tree::Attr(name(rt, local), text(rt, value))))
}

// the document of the texts and the element in `x<b/>y`
pub(crate) fn document_item(rt: &(impl Abort + AllocGlobal)) -> Item {
    let empty = bare(rt, "b", List::new(rt.alloc()));
    let two = list_of_two(rt, text_tree(rt, "x"), empty);
    let kids = with(rt, two, text_tree(rt, "y"));
    Item::Node(root(rt, document(rt, kids)))
}

// the answer to an element `<e>` of the items
pub(crate) fn answer(
    rt: &(impl Abort + AllocGlobal),
    items: ItemList,
    side: Duplicates,
) -> Result<Node, BuildFault> {
    let mut builder = Builder { next: 5 };
    let made = builder.element(rt.alloc(), name(rt, "e"), &items, side);
    drop(builder);
    drop(items);
    made
}

pub(crate) fn is_code(answer: Result<Node, BuildFault>, code: &str) -> bool {
    match answer {
        Ok(node) => {
            drop(node);
            false
        }
        Err(BuildFault::Error(found)) => found.text() == code,
        Err(BuildFault::Memory(_)) => false,
    }
}
