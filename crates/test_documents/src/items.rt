// The texts of items.
use crate::made::{document, name, text};
use doc_writer::{WriteRefusal, write_items, write_items_bare};
use std::alloc::AllocGlobal;
use std::process::Abort;
use xdm_items::{Item, ItemList};
use xt_atoms::Atom;
use xt_tree::{Node, Tree};

fn node(rt: &(impl Abort + AllocGlobal), tree: Tree) -> Item {
    Item::Node(Node::root_of(rt.alloc(), 1, tree).expect(rt, "memory"))
}

fn with_item(rt: &(impl Abort + AllocGlobal), mut items: ItemList, item: Item) -> ItemList {
    items.push(item).expect(rt, "memory");
    items
}

// The atoms `x` and 2, the document of `<a/>`, and the atom 3.
fn mixed(rt: &(impl Abort + AllocGlobal)) -> ItemList {
    let items = ItemList::one(rt.alloc(), Item::Atom(Atom::Str(text(rt, "x"))));
    let items = with_item(rt, items, Item::Atom(Atom::Int(2)));
    let items = with_item(rt, items, node(rt, document(rt, "<a/>")));
    with_item(rt, items, Item::Atom(Atom::Int(3)))
}

#[test]
fn items_are_joined(rt: HostRuntime) {
    let items = mixed(&rt);
    let whole = write_items(rt.alloc(), &items).expect(&rt, "items with a text");
    let expected = "<?xml version=\"1.0\" encoding=\"UTF-8\"?>x 2<a/>3";
    assert!(rt; whole.as_slice() == expected.as_bytes());
    let bare = write_items_bare(rt.alloc(), &items).expect(&rt, "items with a text");
    assert!(rt; bare.as_slice() == "x 2<a/>3".as_bytes());
    drop(items);
}

fn is_refused(written: Result<Vec<u8>, WriteRefusal>) -> bool {
    match written {
        Err(WriteRefusal::Code(code)) => code.text() == "SENR0001",
        _ => false,
    }
}

#[test]
fn an_attribute_among_items_is_refused(rt: HostRuntime) {
    let attribute = Tree::Attr(name(&rt, "", "", "k"), text(&rt, "v"));
    let items = with_item(&rt, mixed(&rt), node(&rt, attribute));
    assert!(rt; is_refused(write_items(rt.alloc(), &items)));
    assert!(rt; is_refused(write_items_bare(rt.alloc(), &items)));
    drop(items);
}
