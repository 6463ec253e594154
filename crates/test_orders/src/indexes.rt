// Indexes of nodes by key.
use crate::made::{MANY, digits, one_key, text, word};
use key_index::{KeyIndex, KeyPair};
use std::alloc::AllocGlobal;
use std::process::Abort;
use xdm_items::{Item, ItemList};
use xt_atoms::Atom;
use xt_names::List;
use xt_tree::{Node, Tree};

// the root of a tree with this number, and a value of it
fn pair(rt: &(impl Abort + AllocGlobal), number: u64, value: Atom) -> KeyPair {
    let tree = Tree::Comment(text(rt, "c"));
    KeyPair {
        node: Node::root_of(rt.alloc(), number, tree).expect(rt, "memory"),
        value,
    }
}

fn three_pairs(rt: &(impl Abort + AllocGlobal)) -> KeyIndex {
    let mut pairs = List::new(rt.alloc());
    pairs.push(pair(rt, 1, word(rt, "a"))).expect(rt, "memory");
    pairs.push(pair(rt, 2, word(rt, "b"))).expect(rt, "memory");
    pairs
        .push(pair(rt, 2, Atom::Untyped(text(rt, "a"))))
        .expect(rt, "memory");
    KeyIndex::build(rt.alloc(), pairs).expect(rt, "memory")
}

fn is_node(item: &Item, number: u64) -> bool {
    match item {
        Item::Node(node) => node.number() == number,
        Item::Atom(_) => false,
    }
}

fn finds(
    rt: &(impl Abort + AllocGlobal),
    index: &KeyIndex,
    values: ItemList,
    numbers: &[u64],
) -> bool {
    let items = index.look_up(rt.alloc(), &values).expect(rt, "memory");
    let mut same = items.len() == numbers.len();
    for (item, number) in items.as_slice().iter().zip(numbers) {
        same = same && is_node(item, *number);
    }
    drop(items);
    drop(values);
    same
}

fn two_keys(rt: &(impl Abort + AllocGlobal), first: Atom, second: Atom) -> ItemList {
    let mut items = one_key(rt, first);
    items.push(Item::Atom(second)).expect(rt, "memory");
    items
}

#[test]
fn each_node_is_found_once(rt: HostRuntime) {
    let index = three_pairs(&rt);
    assert!(rt; finds(&rt, &index, one_key(&rt, word(&rt, "a")), &[1, 2]));
    assert!(rt; finds(&rt, &index, one_key(&rt, word(&rt, "b")), &[2]));
    assert!(rt; finds(&rt, &index, one_key(&rt, word(&rt, "c")), &[]));
    assert!(rt; finds(&rt, &index, ItemList::new(rt.alloc()), &[]));
    let both = two_keys(&rt, word(&rt, "b"), word(&rt, "a"));
    assert!(rt; finds(&rt, &index, both, &[1, 2]));
    drop(index);
}

fn many_pairs(rt: &(impl Abort + AllocGlobal)) -> KeyIndex {
    let mut pairs = List::new(rt.alloc());
    for n in 0..MANY {
        pairs.push(pair(rt, n, digits(rt, n))).expect(rt, "memory");
    }
    KeyIndex::build(rt.alloc(), pairs).expect(rt, "memory")
}

#[test]
fn many_values_are_looked_up(rt: HostRuntime) {
    let index = many_pairs(&rt);
    let mut found: u64 = 0;
    for n in 0..MANY {
        if finds(&rt, &index, one_key(&rt, digits(&rt, n)), &[n]) {
            found = found.saturating_add(1);
        }
    }
    assert!(rt; found == MANY);
    drop(index);
}

// Whether the items are the nodes with the numbers from 0 on.
fn count_up(items: &[Item]) -> bool {
    for n in 0..MANY {
        match items.get(n as usize) {
            Some(item) if is_node(item, n) => {}
            _ => return false,
        }
    }
    items.len() as u64 == MANY
}

#[test]
fn many_values_are_looked_up_at_once(rt: HostRuntime) {
    let index = many_pairs(&rt);
    let mut values = ItemList::new(rt.alloc());
    for n in 0..MANY {
        let before = MANY.saturating_sub(n).saturating_sub(1);
        let value = Item::Atom(digits(&rt, before));
        values.push(value).expect(&rt, "memory");
    }
    let items = index.look_up(rt.alloc(), &values).expect(&rt, "memory");
    assert!(rt; count_up(items.as_slice()));
    drop(items);
    drop(values);
    drop(index);
}

// What is not found is not walked over.
#[test]
fn two_values_are_looked_up_many_times(rt: HostRuntime) {
    let index = many_pairs(&rt);
    let mut found: u64 = 0;
    for n in 1..MANY {
        let before = n.saturating_sub(1);
        let both = two_keys(&rt, digits(&rt, n), digits(&rt, before));
        if finds(&rt, &index, both, &[before, n]) {
            found = found.saturating_add(1);
        }
    }
    assert!(rt; found == MANY - 1);
    drop(index);
}

// One value that many nodes have, given many times.
#[test]
fn a_value_that_is_given_many_times_is_looked_up_once(rt: HostRuntime) {
    let mut pairs = List::new(rt.alloc());
    let mut values = ItemList::new(rt.alloc());
    for n in 0..MANY {
        pairs
            .push(pair(&rt, n, word(&rt, "a")))
            .expect(&rt, "memory");
        let value = Item::Atom(word(&rt, "a"));
        values.push(value).expect(&rt, "memory");
    }
    let index = KeyIndex::build(rt.alloc(), pairs).expect(&rt, "memory");
    let items = index.look_up(rt.alloc(), &values).expect(&rt, "memory");
    assert!(rt; count_up(items.as_slice()));
    drop(items);
    drop(values);
    drop(index);
}
