// Tables of places by key.
use crate::made::{MANY, digits, word};
use order_group::atom_keys::KeyTable;
use std::alloc::AllocGlobal;
use std::process::Abort;
use xt_atoms::Atom;

fn many_places(rt: &(impl Abort + AllocGlobal)) -> KeyTable {
    let mut table = KeyTable::new(rt.alloc());
    for n in 0..MANY {
        let key = digits(rt, n);
        table.add(&key, n).expect(rt, "memory");
        drop(key);
    }
    table
}

fn is_at(rt: &(impl Abort + AllocGlobal), table: &KeyTable, key: Atom, places: &[u64]) -> bool {
    let found = table.places(&key).expect(rt, "memory");
    let same = found == places;
    drop(key);
    same
}

#[test]
fn many_keys_are_found(rt: HostRuntime) {
    let table = many_places(&rt);
    let mut found: u64 = 0;
    for n in 0..MANY {
        if is_at(&rt, &table, digits(&rt, n), &[n]) {
            found = found.saturating_add(1);
        }
    }
    assert!(rt; found == MANY);
    assert!(rt; is_at(&rt, &table, word(&rt, "-1"), &[]));
    drop(table);
}
