// Sequences of one item, which takes no place of its own in memory.
ghost use Rattle.std.specs.Prelude.{◌≡◌, ◌<◌};

use crate::made::is_integer;
use lazy_seq::Seq;
use node_axes::Steps;
use std::alloc::{AllocError, AllocGlobal};
use std::marker::Brand;
use std::process::Abort;
use std::sync::ledger::{Blank, Ledger};
use xdm_items::{Item, ItemList};
use xt_atoms::Atom;

fn single(rt: &impl AllocGlobal) -> Seq {
    Seq::of_list(ItemList::one(rt.alloc(), Item::Atom(Atom::Int(7))))
}

fn next_is<L: Ledger>(blank: Blank, seq: &mut Seq, wanted: Option<i64>) -> Result<bool, AllocError>
    requires name { blank.name ≡ L.name }
    requires parts { blank.parts ≡ L.parts }
    requires one { 0 < blank.parts }
{
    let mut steps = Steps::<L>::begin(blank);
    let item = seq.next(&mut steps)?;
    let is = match wanted {
        Some(number) => is_integer(item.as_ref(), number),
        None => item.is_none(),
    };
    drop(item);
    Ok(is)
}

// Whether the next item is this integer, or there is none.
fn gives(seq: &mut Seq, wanted: Option<i64>) -> Result<bool, AllocError> {
    next_is::<Brand>(Blank::new(1), seq, wanted)
}

#[test]
fn a_single_item_is_given_once(rt: HostRuntime) {
    let mut seq = single(&rt);
    assert!(rt; gives(&mut seq, Some(7)).expect(&rt, "memory"));
    assert!(rt; gives(&mut seq, None).expect(&rt, "memory"));
    assert_eq!(rt; seq.len().expect(&rt, "memory"), Some(0));
    drop(seq);
}

#[test]
fn copies_give_what_is_left(rt: HostRuntime) {
    let mut seq = single(&rt);
    let mut whole = seq.copy().expect(&rt, "memory");
    assert!(rt; gives(&mut seq, Some(7)).expect(&rt, "memory"));
    let mut rest = seq.copy().expect(&rt, "memory");
    assert!(rt; gives(&mut rest, None).expect(&rt, "memory"));
    assert!(rt; gives(&mut whole, Some(7)).expect(&rt, "memory"));
    assert!(rt; gives(&mut whole, None).expect(&rt, "memory"));
    drop(rest);
    drop(whole);
    drop(seq);
}

fn is_at(rt: &(impl Abort + AllocGlobal), seq: &mut Seq, place: i64, wanted: Option<i64>) -> bool {
    let item = seq.at(place).expect(rt, "memory");
    let is = match wanted {
        Some(number) => is_integer(item.as_ref(), number),
        None => item.is_none(),
    };
    drop(item);
    is
}

#[test]
fn a_single_item_is_counted_and_looked_up(rt: HostRuntime) {
    let mut seq = single(&rt);
    assert_eq!(rt; seq.len().expect(&rt, "memory"), Some(1));
    assert!(rt; is_at(&rt, &mut seq, 1, Some(7)));
    assert!(rt; is_at(&rt, &mut seq, 2, None));
    assert!(rt; gives(&mut seq, Some(7)).expect(&rt, "memory"));
    assert!(rt; is_at(&rt, &mut seq, 1, None));
    drop(seq);
}

// Whether the items are the integer 7 alone.
fn is_seven_alone(items: &[Item]) -> bool {
    matches!(items, [Item::Atom(Atom::Int(7))])
}

#[test]
fn a_single_item_is_listed(rt: HostRuntime) {
    let items = single(&rt).to_list(rt.alloc()).expect(&rt, "memory");
    assert!(rt; is_seven_alone(items.as_slice()));
    drop(items);
    let mut seq = single(&rt);
    assert!(rt; gives(&mut seq, Some(7)).expect(&rt, "memory"));
    let none = seq.to_list(rt.alloc()).expect(&rt, "memory");
    assert!(rt; none.is_empty());
    drop(none);
}
