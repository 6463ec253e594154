// Each call once, on each kind of sequence.
ghost use Rattle.std.specs.Prelude.{◌≡◌, ◌<◌};

use crate::made::{is_child, is_integer, wide};
use crate::walks::walk;
use lazy_seq::Seq;
use node_axes::Steps;
use std::alloc::{AllocError, AllocGlobal};
use std::marker::Brand;
use std::process::Abort;
use std::sync::ledger::{Blank, Ledger};
use xdm_items::{Item, ItemList};
use xt_atoms::Atom;
use xt_names::List;
use xt_types::Axis;

const LAST: i64 = 5;

fn list(rt: &(impl Abort + AllocGlobal), first: i64, second: i64) -> Seq {
    let mut items = ItemList::new(rt.alloc());
    items
        .push(Item::Atom(Atom::Int(first)))
        .expect(rt, "memory");
    items
        .push(Item::Atom(Atom::Int(second)))
        .expect(rt, "memory");
    Seq::of_list(items)
}

// The integers from 1 to 5: a list, a range, and a list that copies share.
fn mixed(rt: &(impl Abort + AllocGlobal)) -> Seq {
    let shared = list(rt, 4, 5).share(rt.alloc()).expect(rt, "memory");
    let mut parts = List::new(rt.alloc());
    parts.push(list(rt, 1, 2)).expect(rt, "memory");
    parts.push(Seq::of_range(3, 3)).expect(rt, "memory");
    parts.push(shared).expect(rt, "memory");
    Seq::concat(parts)
}

fn first_is<L: Ledger>(
    seq: &mut Seq,
    steps: &mut Steps<L>,
    wanted: i64,
) -> Result<bool, AllocError> {
    let item = seq.first(steps)?;
    let is = is_integer(item.as_ref(), wanted);
    drop(item);
    Ok(is)
}

fn takes<L: Ledger>(seq: &mut Seq, steps: &mut Steps<L>, wanted: i64) -> Result<bool, AllocError> {
    let item = seq.next(steps)?;
    let is = is_integer(item.as_ref(), wanted);
    drop(item);
    Ok(is)
}

// Whether the sequence gives the integers from 1 to 5 one after another, and no more.
fn gives_all<L: Ledger>(blank: Blank, seq: &mut Seq) -> Result<bool, AllocError>
    requires name { blank.name ≡ L.name }
    requires parts { blank.parts ≡ L.parts }
    requires one { 0 < blank.parts }
{
    let mut steps = Steps::<L>::begin(blank);
    for before in 0..LAST {
        if !first_is(seq, &mut steps, before + 1)? || !takes(seq, &mut steps, before + 1)? {
            return Ok(false);
        }
    }
    seq.is_empty(&mut steps)
}

fn counts_up(seq: &mut Seq) -> Result<bool, AllocError> {
    gives_all::<Brand>(Blank::new(1), seq)
}

#[test]
fn a_sequence_and_its_copy_give_the_same_items(rt: HostRuntime) {
    let mut seq = mixed(&rt);
    let mut copy = seq.copy().expect(&rt, "memory");
    assert!(rt; counts_up(&mut seq).expect(&rt, "memory"));
    assert!(rt; counts_up(&mut copy).expect(&rt, "memory"));
    drop(copy);
    drop(seq);
}

#[test]
fn a_mixed_sequence_is_counted_and_looked_up(rt: HostRuntime) {
    let mut seq = mixed(&rt);
    assert_eq!(rt; seq.len().expect(&rt, "memory"), Some(LAST));
    for before in 0..LAST {
        let item = seq.at(before + 1).expect(&rt, "memory");
        assert!(rt; is_integer(item.as_ref(), before + 1));
        drop(item);
    }
    drop(seq);
}

fn is_node(item: Option<&Item>, place: usize) -> bool {
    matches!(item, Some(Item::Node(node)) if is_child(node, place))
}

fn first_is_node<L: Ledger>(blank: Blank, seq: &mut Seq, place: usize) -> Result<bool, AllocError>
    requires name { blank.name ≡ L.name }
    requires parts { blank.parts ≡ L.parts }
    requires one { 0 < blank.parts }
{
    let mut steps = Steps::<L>::begin(blank);
    let item = seq.first(&mut steps)?;
    let is = is_node(item.as_ref(), place);
    drop(item);
    Ok(is)
}

fn takes_node<L: Ledger>(blank: Blank, seq: &mut Seq, place: usize) -> Result<bool, AllocError>
    requires name { blank.name ≡ L.name }
    requires parts { blank.parts ≡ L.parts }
    requires one { 0 < blank.parts }
{
    let mut steps = Steps::<L>::begin(blank);
    let item = seq.next(&mut steps)?;
    let is = is_node(item.as_ref(), place);
    drop(item);
    Ok(is)
}

// Looks at the first node, and takes it out.
fn gives_node(seq: &mut Seq, place: usize) -> Result<bool, AllocError> {
    let is_first = first_is_node::<Brand>(Blank::new(1), seq, place)?;
    let is_taken = takes_node::<Brand>(Blank::new(1), seq, place)?;
    Ok(is_first && is_taken)
}

#[test]
fn a_walk_gives_its_nodes_and_its_copy_goes_on(rt: HostRuntime) {
    let root = wide(&rt, 3);
    let mut seq = walk(rt.alloc(), &root, Axis::Child).expect(&rt, "memory");
    assert!(rt; gives_node(&mut seq, 0).expect(&rt, "memory"));
    let mut copy = seq.copy().expect(&rt, "memory");
    assert!(rt; gives_node(&mut copy, 1).expect(&rt, "memory"));
    assert_eq!(rt; seq.len().expect(&rt, "memory"), Some(2));
    let second = seq.at(2).expect(&rt, "memory");
    assert!(rt; is_node(second.as_ref(), 2));
    drop(second);
    drop(copy);
    drop(seq);
    drop(root);
}
