// Groups of populations.
use crate::made::{MANY, digits, one_key, word};
use order_group::{Group, group_adjacent, group_by, group_starting};
use std::alloc::AllocGlobal;
use std::process::Abort;
use xdm_items::ItemList;
use xt_atoms::Atom;
use xt_names::List;

// the countries of Milano, Paris, München, Lyon and Venezia, and one city without a country
fn countries(rt: &(impl Abort + AllocGlobal)) -> List<ItemList> {
    let mut keys = List::new(rt.alloc());
    for country in ["Italia", "France", "Deutschland", "France", "Italia"] {
        keys.push(one_key(rt, word(rt, country)))
            .expect(rt, "memory");
    }
    keys.push(ItemList::new(rt.alloc())).expect(rt, "memory");
    keys
}

fn has_members(groups: &List<Group>, place: usize, members: &[u64]) -> bool {
    match groups.as_slice().get(place) {
        Some(group) => group.members.as_slice() == members,
        None => false,
    }
}

#[test]
fn cities_are_grouped_by_country(rt: HostRuntime) {
    let keys = countries(&rt);
    let groups = group_by(rt.alloc(), &keys).expect(&rt, "memory");
    assert!(rt; groups.len() == 3);
    assert!(rt; has_members(&groups, 0, &[0, 4]));
    assert!(rt; has_members(&groups, 1, &[1, 3]));
    assert!(rt; has_members(&groups, 2, &[2]));
    drop(groups);
    drop(keys);
}

fn truths(rt: &(impl Abort + AllocGlobal), list: &[bool]) -> List<Atom> {
    let mut keys = List::new(rt.alloc());
    for truth in list {
        keys.push(Atom::Bool(*truth)).expect(rt, "memory");
    }
    keys
}

#[test]
fn equal_neighbours_are_one_group(rt: HostRuntime) {
    let keys = truths(&rt, &[false, false, true, false]);
    let groups = group_adjacent(rt.alloc(), &keys).expect(&rt, "memory");
    assert!(rt; groups.len() == 3);
    assert!(rt; has_members(&groups, 0, &[0, 1]));
    assert!(rt; has_members(&groups, 1, &[2]));
    assert!(rt; has_members(&groups, 2, &[3]));
    drop(groups);
    drop(keys);
}

#[test]
fn groups_begin_where_told(rt: HostRuntime) {
    let starts = [false, false, true, false, true];
    let groups = group_starting(rt.alloc(), &starts).expect(&rt, "memory");
    assert!(rt; groups.len() == 3);
    assert!(rt; has_members(&groups, 0, &[0, 1]));
    assert!(rt; has_members(&groups, 1, &[2, 3]));
    assert!(rt; has_members(&groups, 2, &[4]));
    drop(groups);
}

fn many_keys(rt: &(impl Abort + AllocGlobal)) -> List<ItemList> {
    let mut keys = List::new(rt.alloc());
    for n in 0..MANY {
        keys.push(one_key(rt, digits(rt, n))).expect(rt, "memory");
    }
    keys
}

fn are_single(groups: &[Group]) -> bool {
    let mut place: u64 = 0;
    for group in groups {
        if group.members.as_slice() != [place].as_slice() {
            return false;
        }
        place = place.saturating_add(1);
    }
    place == MANY
}

#[test]
fn many_keys_give_many_groups(rt: HostRuntime) {
    let keys = many_keys(&rt);
    let groups = group_by(rt.alloc(), &keys).expect(&rt, "memory");
    assert!(rt; are_single(groups.as_slice()));
    drop(groups);
    drop(keys);
}
