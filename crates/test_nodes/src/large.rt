// Builders at their limits: numbers, levels and sizes; and large content.
use crate::made::{
    KEEP, REFUSE, answer, attribute_item, bare, is_code, name, root, text, text_item, two_items,
};
use node_builder::{BuildFault, Builder};
use std::alloc::AllocGlobal;
use std::process::Abort;
use xdm_items::{Item, ItemList};
use xt_names::{List, Name};
use xt_tree::{Node, Tree};

// Numbers.

fn is_numbered(answer: Result<Node, BuildFault>, number: u64) -> bool {
    match answer {
        Ok(node) => {
            let same = node.number() == number;
            drop(node);
            same
        }
        Err(_) => false,
    }
}

#[test]
fn trees_are_numbered_in_turn(rt: HostRuntime) {
    let mut builder = Builder { next: 5 };
    assert!(rt; is_numbered(builder.text(rt.alloc(), ""), 5));
    assert!(rt; is_numbered(builder.text(rt.alloc(), "t"), 6));
    assert_eq!(rt; builder.next, 7);
}

#[test]
fn a_refusal_uses_no_number(rt: HostRuntime) {
    let mut builder = Builder { next: 5 };
    assert!(rt; is_code(builder.comment(rt.alloc(), "--"), "XQDY0072"));
    assert_eq!(rt; builder.next, 5);
}

#[test]
fn numbers_are_used_up(rt: HostRuntime) {
    let mut builder = Builder { next: u64::MAX - 1 };
    assert!(rt; is_numbered(builder.text(rt.alloc(), "t"), u64::MAX - 1));
    assert!(rt; is_code(builder.comment(rt.alloc(), "--"), "XTLM0001"));
}

// Limits.

// the next element `<a>`
fn next(
    rt: &(impl Abort + AllocGlobal),
    builder: &mut Builder,
    items: ItemList,
) -> Result<Node, BuildFault> {
    let made = builder.element(rt.alloc(), name(rt, "a"), &items, KEEP);
    drop(items);
    made
}

// the answer to the last of so many elements within each other
fn nest(rt: &(impl Abort + AllocGlobal), levels: u32) -> Result<Node, BuildFault> {
    let mut builder = Builder { next: 0 };
    let mut items = ItemList::new(rt.alloc());
    for _ in 1..levels {
        let inner = next(rt, &mut builder, items).expect(rt, "an element");
        items = ItemList::one(rt.alloc(), Item::Node(inner));
    }
    next(rt, &mut builder, items)
}

#[test]
fn elements_nest_2000_levels(rt: HostRuntime) {
    assert!(rt; is_numbered(nest(&rt, 2000), 1999));
    assert!(rt; is_code(nest(&rt, 2001), "XTLM0002"));
}

// Each of so many elements holds the one before twice; the last has 2^(levels+1) - 1 nodes.
fn double(rt: &(impl Abort + AllocGlobal), levels: u32) -> Result<Node, BuildFault> {
    let mut builder = Builder { next: 0 };
    let mut items = ItemList::new(rt.alloc());
    for _ in 0..levels {
        let inner = next(rt, &mut builder, items).expect(rt, "an element");
        let copy = inner.copy().expect(rt, "memory");
        items = two_items(rt, Item::Node(copy), Item::Node(inner));
    }
    next(rt, &mut builder, items)
}

#[test]
fn an_element_has_fewer_than_2_to_the_63_nodes(rt: HostRuntime) {
    assert!(rt; is_numbered(double(&rt, 62), 62));
    assert!(rt; is_code(double(&rt, 63), "XTLM0002"));
}

// Large content.

// the name `aN`
fn numbered(rt: &(impl Abort + AllocGlobal), n: u64) -> Name {
    let local = format!(in rt.alloc(); "a{n}").expect(rt, "memory");
    name(rt, local.as_str())
}

fn many_attributes(rt: &(impl Abort + AllocGlobal)) -> ItemList {
    let mut items = ItemList::new(rt.alloc());
    for n in 0..100_000 {
        let tree = Tree::Attr(numbered(rt, n), text(rt, ""));
        items.push(Item::Node(root(rt, tree))).expect(rt, "memory");
    }
    items
        .push(attribute_item(rt, "a0", "last"))
        .expect(rt, "memory");
    items
}

fn ends_with_last(node: &Node) -> bool {
    matches!(node.tree().attributes(), [.., last] if last.value.is("last"))
}

#[test]
fn attributes_by_the_100000(rt: HostRuntime) {
    let node = answer(&rt, many_attributes(&rt), KEEP).expect(&rt, "an element");
    assert_eq!(rt; node.attribute_count(), 100_000);
    assert!(rt; ends_with_last(&node));
    drop(node);
}

fn many_texts(rt: &(impl Abort + AllocGlobal)) -> ItemList {
    let mut items = ItemList::new(rt.alloc());
    for _ in 0..100_000 {
        items.push(text_item(rt, "abc")).expect(rt, "memory");
    }
    items
}

#[test]
fn texts_by_the_100000(rt: HostRuntime) {
    let node = answer(&rt, many_texts(&rt), REFUSE).expect(&rt, "an element");
    assert_eq!(rt; node.child_count(), 1);
    let value = node.string_value(rt.alloc()).expect(&rt, "memory");
    assert_eq!(rt; value.as_str().len(), 300_000);
    drop(value);
    drop(node);
}

fn many_elements(rt: &(impl Abort + AllocGlobal)) -> ItemList {
    let mut items = ItemList::new(rt.alloc());
    for _ in 0..100_000 {
        let empty = bare(rt, "b", List::new(rt.alloc()));
        items.push(Item::Node(root(rt, empty))).expect(rt, "memory");
    }
    items
}

// The document of 100,000 elements, each of which holds the same element with 100,000 children.
fn share_large(rt: &(impl Abort + AllocGlobal)) -> Result<Node, BuildFault> {
    let mut builder = Builder { next: 0 };
    let large = next(rt, &mut builder, many_elements(rt)).expect(rt, "an element");
    let content = ItemList::one(rt.alloc(), Item::Node(large));
    let mut holders = ItemList::new(rt.alloc());
    for _ in 0..100_000 {
        let holder = builder.element(rt.alloc(), name(rt, "holder"), &content, KEEP);
        let holder = holder.expect(rt, "an element");
        holders.push(Item::Node(holder)).expect(rt, "memory");
    }
    drop(content);
    let made = builder.document(rt.alloc(), &holders, REFUSE);
    drop(holders);
    made
}

// 10^10 nodes in all
#[test]
fn elements_share_one_large_subtree(rt: HostRuntime) {
    let node = share_large(&rt).expect(&rt, "a document");
    assert_eq!(rt; node.tree().size(), 10_000_200_001);
    drop(node);
}
