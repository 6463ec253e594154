// Lists of nodes as sets, by XPath 2.0, 3.3.3.
use crate::made::{element, name, text};
use crate::written::answer;
use operator_values as operators;
use std::alloc::AllocGlobal;
use std::process::Abort;
use xdm_items::{Item, ItemList};
use xt_names::List;
use xt_tree::{Node, Tree};

const MANY: usize = 300_000;

const HALF: usize = 150_000;

#[test]
fn nodes_in_document_order(rt: HostRuntime) {
    let cases = [
        ("union", "n:b,n:a;n:text,n:b", "n:/0,n:/00,n:/03"),
        ("union", "n:text,n:m;n:k,n:a", "n:/0,n:/0@0,n:/0@1,n:/00"),
        ("union", "n:a,n:a;n:a", "n:/0"),
        ("union", "o:a;n:b,n:a", "n:/0,n:/03,o:/0"),
        ("union", ";n:b,n:b", "n:/03"),
        ("union", "n:b,n:pi;", "n:/02,n:/03"),
        ("union", ";", ""),
        ("intersect", "n:b,n:a,n:text;n:text,n:b,n:k", "n:/00,n:/03"),
        ("intersect", "n:m,n:k;n:a,n:m", "n:/0@1"),
        ("intersect", "n:a,n:a;n:a", "n:/0"),
        ("intersect", "n:a;o:a", ""),
        ("intersect", "o:b,n:b;n:b,o:b", "n:/03,o:/03"),
        ("intersect", ";n:a", ""),
        ("intersect", "n:a;", ""),
        ("except", "n:b,n:a,n:text,n:b;n:text", "n:/0,n:/03"),
        ("except", "n:m,n:k;n:a", "n:/0@0,n:/0@1"),
        ("except", "n:a,o:a;o:a", "n:/0"),
        ("except", "n:a,n:a;n:a", ""),
        ("except", "n:b,n:a;", "n:/0,n:/03"),
        ("except", ";n:a", ""),
    ];
    for (word, words, wanted) in cases {
        let found = answer(&rt, word, words);
        assert_eq!(rt; found.as_str(), wanted, "{word}({words})");
        drop(found);
    }
}

#[test]
fn sets_hold_no_atoms(rt: HostRuntime) {
    let operands = ["i:1;", ";i:1", "n:a;n:b,s:x", "n:a,true;n:a", "i:1;i:1"];
    for words in operands {
        for word in ["union", "intersect", "except"] {
            let found = answer(&rt, word, words);
            assert_eq!(rt; found.as_str(), "XPTY0004", "{word}({words})");
            drop(found);
        }
    }
}

// an element of so many comments
fn crowd(rt: &(impl Abort + AllocGlobal), count: usize) -> Node {
    let mut kids = List::new(rt.alloc());
    for _ in 0..count {
        kids.push(Tree::Comment(text(rt, ""))).expect(rt, "memory");
    }
    let tree = element(rt, name(rt, "", "", "a"), List::new(rt.alloc()), kids);
    Node::root_of(rt.alloc(), 1, tree).expect(rt, "memory")
}

// the children at the places from the one below the other, the last of them first
fn backwards(
    rt: &(impl Abort + AllocGlobal),
    parent: &Node,
    from: usize,
    below: usize,
) -> ItemList {
    let mut items = ItemList::new(rt.alloc());
    for place in (from..below).rev() {
        let child = parent.child(place).expect(rt, "memory");
        items
            .push(Item::Node(child.expect(rt, "a child")))
            .expect(rt, "memory");
    }
    items
}

// whether the items are the children at these places, in order
fn is_run(items: &ItemList, from: usize, below: usize) -> bool {
    let mut wanted = from;
    for item in items.as_slice() {
        match item {
            Item::Node(node) if node.path() == [wanted].as_slice() => wanted = wanted.wrapping_add(
                1,
            ),
            _ => return false,
        }
    }
    wanted == below
}

#[test]
fn large_sets(rt: HostRuntime) {
    let parent = crowd(&rt, MANY + HALF);
    let left = backwards(&rt, &parent, 0, MANY);
    let right = backwards(&rt, &parent, HALF, MANY + HALF);
    let all = operators::union(rt.alloc(), &left, &right).expect(&rt, "nodes");
    assert!(rt; is_run(&all, 0, MANY + HALF));
    drop(all);
    let both = operators::intersect(rt.alloc(), &left, &right).expect(&rt, "nodes");
    assert!(rt; is_run(&both, HALF, MANY));
    drop(both);
    let rest = operators::except(rt.alloc(), &left, &right).expect(&rt, "nodes");
    assert!(rt; is_run(&rest, 0, HALF));
    drop(rest);
    drop(right);
    drop(left);
    drop(parent);
}
