// Concatenations of many sequences, flat and nested.
use crate::made::{is_integer, items_of};
use lazy_seq::Seq;
use std::alloc::AllocGlobal;
use std::process::Abort;
use xdm_items::Item;
use xt_names::List;

const MANY: u32 = 100_000;

// Whether the items are the integers from 1 on.
fn count_up(items: &[Item]) -> bool {
    for number in 0..MANY {
        if !is_integer(items.get(number as usize), number as i64 + 1) {
            return false;
        }
    }
    items.len() == MANY as usize
}

fn alone(number: u32) -> Seq {
    Seq::of_range(number as i64, number as i64)
}

// The integers from 1 on, each a sequence of its own.
fn flat(rt: &(impl Abort + AllocGlobal)) -> Seq {
    let mut parts = List::new(rt.alloc());
    for number in 0..MANY {
        parts.push(alone(number + 1)).expect(rt, "memory");
    }
    Seq::concat(parts)
}

fn both(rt: &(impl Abort + AllocGlobal), first: Seq, second: Seq) -> Seq {
    let mut parts = List::new(rt.alloc());
    parts.push(first).expect(rt, "memory");
    parts.push(second).expect(rt, "memory");
    Seq::concat(parts)
}

// The same, where each concatenation is the left part of the next.
fn left_nested(rt: &(impl Abort + AllocGlobal)) -> Seq {
    let mut seq = Seq::of_range(1, 0);
    for number in 0..MANY {
        seq = both(rt, seq, alone(number + 1));
    }
    seq
}

// The same, where each is the right part.
fn right_nested(rt: &(impl Abort + AllocGlobal)) -> Seq {
    let mut seq = Seq::of_range(1, 0);
    for number in 0..MANY {
        seq = both(rt, alone(MANY - number), seq);
    }
    seq
}

fn walks_to_its_end(rt: &(impl Abort + AllocGlobal), seq: Seq) -> bool {
    let items = items_of(rt, seq);
    let is = count_up(items.as_slice());
    drop(items);
    is
}

#[test]
fn many_parts_are_walked_to_the_end(rt: HostRuntime) {
    assert!(rt; walks_to_its_end(&rt, flat(&rt)));
}

#[test]
fn left_nested_parts_are_walked_to_the_end(rt: HostRuntime) {
    assert!(rt; walks_to_its_end(&rt, left_nested(&rt)));
}

#[test]
fn right_nested_parts_are_walked_to_the_end(rt: HostRuntime) {
    assert!(rt; walks_to_its_end(&rt, right_nested(&rt)));
}

#[test]
fn many_parts_are_counted_and_looked_up(rt: HostRuntime) {
    let mut seq = flat(&rt);
    assert_eq!(rt; seq.len().expect(&rt, "memory"), Some(MANY as i64));
    let last = seq.at(MANY as i64).expect(&rt, "memory");
    assert!(rt; is_integer(last.as_ref(), MANY as i64));
    drop(last);
    drop(seq);
}
