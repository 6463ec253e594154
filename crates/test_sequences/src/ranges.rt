// Ranges, which are not counted out.
use crate::made::is_integer;
use lazy_seq::Seq;
use std::alloc::AllocGlobal;
use std::process::Abort;

fn len_of(rt: &(impl Abort + AllocGlobal), from: i64, to: i64) -> Option<i64> {
    let mut seq = Seq::of_range(from, to);
    let len = seq.len().expect(rt, "memory");
    drop(seq);
    len
}

#[test]
fn the_length_of_a_range_is_told_at_once(rt: HostRuntime) {
    assert_eq!(rt; len_of(&rt, 1, i64::MAX), Some(i64::MAX));
    assert_eq!(rt; len_of(&rt, 0, i64::MAX), None);
    assert_eq!(rt; len_of(&rt, i64::MIN, i64::MAX), None);
    assert_eq!(rt; len_of(&rt, i64::MIN, -2), Some(i64::MAX));
    assert_eq!(rt; len_of(&rt, 1, 0), Some(0));
}

fn is_at(rt: &(impl Abort + AllocGlobal), seq: &mut Seq, place: i64, wanted: i64) -> bool {
    let item = seq.at(place).expect(rt, "memory");
    let is = is_integer(item.as_ref(), wanted);
    drop(item);
    is
}

fn is_nothing(rt: &(impl Abort + AllocGlobal), seq: &mut Seq, place: i64) -> bool {
    let item = seq.at(place).expect(rt, "memory");
    let is = item.is_none();
    drop(item);
    is
}

#[test]
fn the_places_of_a_range_are_found_at_once(rt: HostRuntime) {
    let mut seq = Seq::of_range(1, i64::MAX);
    assert!(rt; is_at(&rt, &mut seq, 1, 1) && is_at(&rt, &mut seq, 3, 3));
    assert!(rt; is_at(&rt, &mut seq, i64::MAX, i64::MAX));
    assert!(rt; is_nothing(&rt, &mut seq, 0) && is_nothing(&rt, &mut seq, i64::MIN));
    drop(seq);
}

#[test]
fn places_past_the_end_have_nothing(rt: HostRuntime) {
    let mut seq = Seq::of_range(i64::MAX - 1, i64::MAX);
    assert!(rt; is_at(&rt, &mut seq, 2, i64::MAX));
    assert!(rt; is_nothing(&rt, &mut seq, 3) && is_nothing(&rt, &mut seq, i64::MAX));
    drop(seq);
}
