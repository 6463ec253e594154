// Cursors, of which no more is walked than is asked for.
ghost use Rattle.std.specs.Prelude.{◌≡◌, ◌<◌};

use crate::made::{child, is_child, items_of, wide};
use lazy_seq::Seq;
use node_axes::{Cursor, Steps};
use std::alloc::{AllocError, Global};
use std::marker::Brand;
use std::sync::ledger::{Blank, Ledger};
use xdm_items::Item;
use xt_names::Text;
use xt_tree::Node;
use xt_types::{Axis, NameTest, Test};

const MANY: u32 = 300_000;

// The elements `a` on the axis.
pub(crate) fn walk(alloc: Global, node: &Node, axis: Axis) -> Result<Seq, AllocError> {
    let test = Test::Named(NameTest::Local(Text::make(alloc, "a")?));
    Seq::of_cursor(alloc, Cursor::new(alloc, node, axis, test)?)
}

fn has_descendant<L: Ledger>(
    alloc: Global,
    node: &Node,
    steps: &mut Steps<L>,
) -> Result<bool, AllocError> {
    let mut seq = walk(alloc, node, Axis::Descendant)?;
    let is_empty = seq.is_empty(steps);
    drop(seq);
    Ok(!is_empty?)
}

// Whether there is a descendant, asked again and again.
fn has_always_descendant<L: Ledger>(
    alloc: Global,
    blank: Blank,
    node: &Node,
) -> Result<bool, AllocError>
    requires name { blank.name ≡ L.name }
    requires parts { blank.parts ≡ L.parts }
    requires one { 0 < blank.parts }
{
    let mut steps = Steps::<L>::begin(blank);
    for _ in 0..MANY {
        if !has_descendant(alloc, node, &mut steps)? {
            return Ok(false);
        }
    }
    Ok(true)
}

fn always_finds(alloc: Global, node: &Node) -> Result<bool, AllocError> {
    has_always_descendant::<Brand>(alloc, Blank::new(1), node)
}

#[test]
fn whether_there_is_a_hit_walks_only_to_the_first(rt: HostRuntime) {
    let root = wide(&rt, MANY);
    assert!(rt; always_finds(rt.alloc(), &root).expect(&rt, "memory"));
    drop(root);
}

// Whether the nodes are the children of the root, but for the last, in their order.
fn are_children(items: &[Item]) -> bool {
    for place in 0..items.len() {
        if !matches!(items.get(place), Some(Item::Node(node)) if is_child(node, place)) {
            return false;
        }
    }
    items.len() == MANY as usize - 1
}

#[test]
fn many_nodes_the_other_way_round_are_sorted(rt: HostRuntime) {
    let root = wide(&rt, MANY);
    let last = child(&rt, &root, MANY as usize - 1);
    let seq = walk(rt.alloc(), &last, Axis::PrecedingSibling).expect(&rt, "memory");
    let sorted = seq.in_document_order(rt.alloc()).expect(&rt, "memory");
    let items = items_of(&rt, sorted);
    assert!(rt; are_children(items.as_slice()));
    drop(items);
    drop(last);
    drop(root);
}
