// Walks that give what quiet predicates keep of the elements `b` on an axis.
ghost use Rattle.std.specs.Prelude.{◌≡◌, ◌<◌};

use crate::asked::quiet_walk;
use crate::made::{many, node_of, sample};
use crate::written::{predicates_of, test_of};
use node_axes::{Cursor, Steps};
use node_walks::Walk;
use std::alloc::{AllocError, AllocGlobal};
use std::marker::Brand;
use std::process::Abort;
use std::sync::ledger::{Blank, Ledger};
use xdm_items::Item;
use xt_tree::Tree;
use xt_types::Axis;

const COUNT: usize = 100_000;

const TIMES: usize = 2_000;

pub(crate) fn is_at(item: Option<&Item>, place: usize) -> bool {
    match item {
        Some(Item::Node(node)) => matches!(node.path(), [.., last] if *last == place),
        _ => false,
    }
}

fn gives<L: Ledger>(
    walk: &mut Walk,
    steps: &mut Steps<L>,
    place: usize,
) -> Result<bool, AllocError> {
    let first = walk.first(steps)?;
    let next = walk.next(steps)?;
    let is = is_at(first.as_ref(), place) && is_at(next.as_ref(), place);
    drop(first);
    drop(next);
    Ok(is)
}

// Whether the walk gives the nodes at these places below their parents, and no more.
fn gives_all<L: Ledger>(blank: Blank, walk: &mut Walk, places: &[usize]) -> Result<bool, AllocError>
    requires name { blank.name ≡ L.name }
    requires parts { blank.parts ≡ L.parts }
    requires one { 0 < blank.parts }
{
    let mut steps = Steps::<L>::begin(blank);
    for place in places {
        if !gives(walk, &mut steps, *place)? {
            return Ok(false);
        }
    }
    let more = walk.settle(&mut steps)?;
    Ok(!more)
}

fn walks_over(walk: &mut Walk, places: &[usize]) -> Result<bool, AllocError> {
    gives_all::<Brand>(Blank::new(1), walk, places)
}

fn walk_from(
    rt: &(impl Abort + AllocGlobal),
    tree: &Tree,
    from: &str,
    axis: Axis,
    predicates: &str,
) -> Walk {
    quiet_walk(
        rt,
        cursor_from(rt, tree, from, axis),
        predicates_of(rt, predicates),
    )
}

// Along the elements `b` on the axis.
pub(crate) fn cursor_from(
    rt: &(impl Abort + AllocGlobal),
    tree: &Tree,
    from: &str,
    axis: Axis,
) -> Cursor {
    let node = node_of(rt, tree, from);
    let cursor = Cursor::new(rt.alloc(), &node, axis, test_of(rt, "b")).expect(rt, "memory");
    drop(node);
    cursor
}

fn found(
    rt: &(impl Abort + AllocGlobal),
    tree: &Tree,
    from: &str,
    axis: Axis,
    predicates: &str,
    places: &[usize],
) -> bool {
    is_walked(rt, walk_from(rt, tree, from, axis, predicates), places)
}

// Whether the walk counts and gives the nodes at these places, and no more.
fn is_walked(rt: &(impl Abort + AllocGlobal), walk: Walk, places: &[usize]) -> bool {
    let mut walk = walk;
    let count = walk.count().expect(rt, "memory");
    let is = walks_over(&mut walk, places).expect(rt, "memory");
    drop(walk);
    is && count == Some(places.len() as u64)
}

// The children `b` of `a` are at 0, 2 and 4; the first two have the attribute `k`.
#[test]
fn positions_count_in_the_list_that_a_predicate_gets(rt: HostRuntime) {
    let tree = sample(&rt);
    assert!(rt; found(&rt, &tree, "0", Axis::Child, "", &[0, 2, 4]));
    assert!(rt; found(&rt, &tree, "0", Axis::Child, "[2][1]", &[2]));
    assert!(rt; found(&rt, &tree, "0", Axis::Child, "[1][2]", &[]));
    assert!(rt; found(&rt, &tree, "0", Axis::Child, "[@k][2]", &[2]));
    assert!(rt; found(&rt, &tree, "0", Axis::Child, "[3][@k]", &[]));
    assert!(rt; found(&rt, &tree, "0", Axis::Child, "[@k,not][1]", &[4]));
    drop(tree);
}

// Along a reverse axis the nearest comes first.
#[test]
fn positions_count_backwards_on_reverse_axes(rt: HostRuntime) {
    let tree = sample(&rt);
    assert!(rt; found(&rt, &tree, "07", Axis::PrecedingSibling, "[1]", &[4]));
    assert!(rt; found(&rt, &tree, "07", Axis::PrecedingSibling, "[3]", &[0]));
    assert!(rt; found(&rt, &tree, "07", Axis::PrecedingSibling, "[@k][1]", &[2]));
    drop(tree);
}

// The `b` inside of `d` is at 0, and that inside of `e` too.
#[test]
fn walks_without_predicates_give_all(rt: HostRuntime) {
    let tree = sample(&rt);
    let down = Walk::of_cursor(cursor_from(&rt, &tree, "0", Axis::Child));
    assert!(rt; is_walked(&rt, down, &[0, 2, 4]));
    let deep = Walk::of_cursor(cursor_from(&rt, &tree, "0", Axis::Descendant));
    assert!(rt; is_walked(&rt, deep, &[0, 2, 4, 0, 0]));
    let back = Walk::of_cursor(cursor_from(&rt, &tree, "07", Axis::PrecedingSibling));
    assert!(rt; is_walked(&rt, back, &[4, 2, 0]));
    let none = Walk::of_cursor(cursor_from(&rt, &tree, "01", Axis::Child));
    assert!(rt; is_walked(&rt, none, &[]));
    drop(tree);
}

#[test]
fn an_item_is_found_by_its_place_and_copies_go_on(rt: HostRuntime) {
    let tree = sample(&rt);
    let mut walk = walk_from(&rt, &tree, "0", Axis::Child, "[@k]");
    let second = walk.at(1).expect(&rt, "memory");
    assert!(rt; is_at(second.as_ref(), 2));
    drop(second);
    let mut copy = walk.copy().expect(&rt, "memory");
    assert!(rt; walks_over(&mut walk, &[0, 2]).expect(&rt, "memory"));
    assert!(rt; walks_over(&mut copy, &[0, 2]).expect(&rt, "memory"));
    drop(copy);
    drop(walk);
    drop(tree);
}

// Only the first of many nodes is judged, again and again.
#[test]
fn the_first_of_many_is_found_at_once(rt: HostRuntime) {
    let tree = many(&rt, COUNT);
    for _ in 0..TIMES {
        let walk = walk_from(&rt, &tree, "0", Axis::Child, "[@k][1]");
        let first = walk.at(0).expect(&rt, "memory");
        assert!(rt; is_at(first.as_ref(), 0));
        drop(first);
        drop(walk);
    }
    drop(tree);
}
