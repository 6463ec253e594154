// Lists of items: none, one and many of them.
use std::alloc::AllocGlobal;
use std::process::Abort;
use xdm_items::{HeldItems, Item, ItemList, copy_item_list};
use xt_atoms::Atom;

fn integer(number: i64) -> Item {
    Item::Atom(Atom::Int(number))
}

fn put(rt: &(impl Abort + AllocGlobal), items: &mut ItemList, number: i64) {
    items.push(integer(number)).expect(rt, "memory");
}

// the integers, each put at the end
fn pushed(rt: &(impl Abort + AllocGlobal), numbers: &[i64]) -> ItemList {
    let mut items = ItemList::new(rt.alloc());
    for number in numbers {
        put(rt, &mut items, *number);
    }
    items
}

// the same, taken out of a vector
fn gathered(rt: &(impl Abort + AllocGlobal), numbers: &[i64]) -> ItemList {
    let mut items = Vec::new(rt.alloc());
    for number in numbers {
        items.push(integer(*number)).expect(rt, "memory");
    }
    ItemList::of_vec(items)
}

fn is_integer(item: &Item, wanted: i64) -> bool {
    matches!(item, Item::Atom(Atom::Int(number)) if *number == wanted)
}

fn are_integers(items: &[Item], numbers: &[i64]) -> bool {
    let mut are = items.len() == numbers.len();
    for (item, number) in items.iter().zip(numbers) {
        are = are && is_integer(item, *number);
    }
    are
}

#[test]
fn what_is_put_at_the_end_comes_last(rt: HostRuntime) {
    let mut items = ItemList::new(rt.alloc());
    assert!(rt; are_integers(items.as_slice(), &[]));
    put(&rt, &mut items, 7);
    assert!(rt; are_integers(items.as_slice(), &[7]));
    put(&rt, &mut items, 5);
    assert!(rt; are_integers(items.as_slice(), &[7, 5]));
    put(&rt, &mut items, 6);
    assert!(rt; are_integers(items.as_slice(), &[7, 5, 6]));
    drop(items);
}

#[test]
fn the_list_of_an_item_grows(rt: HostRuntime) {
    let mut items = ItemList::one(rt.alloc(), integer(7));
    assert!(rt; are_integers(items.as_slice(), &[7]));
    put(&rt, &mut items, 5);
    assert!(rt; are_integers(items.as_slice(), &[7, 5]));
    drop(items);
}

const COUNTS: [&[i64]; 3] = [&[], &[7], &[7, 5, 6]];

fn is_counted(items: ItemList, count: usize) -> bool {
    let is = items.len() == count && items.is_empty() == (count == 0);
    drop(items);
    is
}

#[test]
fn items_are_counted(rt: HostRuntime) {
    for numbers in COUNTS {
        let count = numbers.len();
        assert!(rt; is_counted(pushed(&rt, numbers), count), "{count} pushed");
        assert!(rt;
            is_counted(gathered(&rt, numbers), count),
            "{count} gathered"
        );
    }
}

#[test]
fn lists_become_vectors(rt: HostRuntime) {
    for numbers in COUNTS {
        let count = numbers.len();
        let items = pushed(&rt, numbers).into_vec().expect(&rt, "memory");
        assert!(rt; are_integers(items.as_slice(), numbers), "{count}");
        drop(items);
    }
}

#[test]
fn lists_of_each_length_are_copied(rt: HostRuntime) {
    for numbers in COUNTS {
        let count = numbers.len();
        let items = pushed(&rt, numbers);
        let copy = copy_item_list(&items).expect(&rt, "memory");
        drop(items);
        assert!(rt; are_integers(copy.as_slice(), numbers), "{count}");
        drop(copy);
    }
}

// how the list holds these integers, or `other`
fn holding(items: ItemList, numbers: &[i64]) -> &'static str {
    match items.into_held() {
        HeldItems::Empty => "empty",
        HeldItems::One(item) => {
            let is = matches!(numbers, [only] if is_integer(&item, *only));
            drop(item);
            if is { "one" } else { "other" }
        }
        HeldItems::Many(all) => {
            let are = are_integers(all.as_slice(), numbers);
            drop(all);
            if are { "many" } else { "other" }
        }
    }
}

#[test]
fn what_a_list_holds_is_told(rt: HostRuntime) {
    let one = ItemList::one(rt.alloc(), integer(7));
    assert_eq!(rt; holding(one, &[7]), "one");
    assert_eq!(rt; holding(pushed(&rt, &[]), &[]), "empty");
    assert_eq!(rt; holding(pushed(&rt, &[7]), &[7]), "one");
    assert_eq!(rt; holding(pushed(&rt, &[7, 5]), &[7, 5]), "many");
    assert_eq!(rt; holding(gathered(&rt, &[7, 5]), &[7, 5]), "many");
}

// two lists, and the one after the other
const JOINED: [(&[i64], &[i64], &[i64]); 9] = [
    (&[], &[], &[]),
    (&[], &[4], &[4]),
    (&[], &[6, 4, 5], &[6, 4, 5]),
    (&[7], &[], &[7]),
    (&[7], &[4], &[7, 4]),
    (&[7], &[6, 4, 5], &[7, 6, 4, 5]),
    (&[3, 1, 2], &[], &[3, 1, 2]),
    (&[3, 1, 2], &[4], &[3, 1, 2, 4]),
    (&[3, 1, 2], &[6, 4, 5], &[3, 1, 2, 6, 4, 5]),
];

fn are_joined(
    rt: &(impl Abort + AllocGlobal),
    first: ItemList,
    second: ItemList,
    wanted: &[i64],
) -> bool {
    let both = first.joined(second).expect(rt, "memory");
    let are = are_integers(both.as_slice(), wanted);
    drop(both);
    are
}

#[test]
fn one_list_stands_behind_the_other(rt: HostRuntime) {
    for (first, second, wanted) in JOINED {
        let (before, behind) = (first.len(), second.len());
        assert!(rt;
            are_joined(&rt, pushed(&rt, first), pushed(&rt, second), wanted),
            "{before} and {behind}"
        );
    }
}

// A vector may hold no item and one item too.
#[test]
fn lists_of_vectors_are_joined(rt: HostRuntime) {
    for (first, second, wanted) in JOINED {
        let (before, behind) = (first.len(), second.len());
        assert!(rt;
            are_joined(&rt, gathered(&rt, first), gathered(&rt, second), wanted),
            "{before} and {behind}"
        );
    }
}
