// The groups of a population, as places from 0.
ghost use Rattle.std.specs.Prelude.{◌≡◌, ◌++◌, ◌∷◌, [], Some, IfOk, OnOk, map};
ghost use Rattle.std.specs.Option.{option_copied};
ghost use Rattle.order_group.specs.Groups.{atoms_of, changes, grouped_adjacent, grouped_by, grouped_starting, plain_mark, Mark};
ghost use Rattle.order_group.specs.Steps.{continued, entry_group, extended, first_group, with_mark, with_row, with_rows};

use crate::atom_keys::{KeyEntry, KeyTable};
use std::alloc::{AllocError, Global};
use xdm_items::{Item, ItemList};
use xt_atoms::{Atom, key_same};
use xt_names::List;

/// A group of a population, with its grouping key, if it has one.
#[derive(Drop)]
pub struct Group {
    pub key: Option<Atom>,
    pub members: List<u64>,
}

/// The groups of items that have these keys (`group-by`, XSLT 2.0, 14.3): one for each key, in the
/// order in which the keys are first seen, with the places of the items that have the key. An item
/// without a key is in no group. Nodes are no keys: callers atomize them.
pub fn group_by(alloc: Global, keys: &List<ItemList>) -> Result<List<Group>, AllocError>
    ensures { IfOk result (λ groups. groups ≡ grouped_by keys.now) }
{
    let table = keyed_places(alloc, keys.as_slice())?;
    groups_of(alloc, table.into_entries())
}

fn keyed_places(alloc: Global, keys: &[ItemList]) -> Result<KeyTable, AllocError>
    ensures { IfOk result (λ table. table ≡ with_rows [] 0 (map atoms_of keys.now)) }
{
    let mut table = KeyTable::new(alloc);
    let mut place = 0;
    for row in keys {
        add_row(&mut table, row.as_slice(), place)?;
        place += 1;
    }
    Ok(table)
}

fn add_row(table: &mut KeyTable, row: &[Item], place: u64) -> Result<(), AllocError>
    ensures { OnOk result (table.new ≡ with_row table.old (atoms_of row.now) place) }
{
    for item in row {
        match item {
            Item::Atom(key) => table.add(key, place)?,
            Item::Node(_) => {}
        }
    }
    Ok(())
}

fn groups_of(alloc: Global, entries: Vec<KeyEntry>) -> Result<List<Group>, AllocError>
    ensures { IfOk result (λ groups. groups ≡ map entry_group entries.items) }
{
    let mut left = entries;
    let mut groups = Vec::with_capacity(alloc, left.len())?;
    while let Some(entry) = left.pop() {
        groups.push(group_of(entry))?;
    }
    groups.reverse();
    Ok(List::of_vec(groups))
}

fn group_of(entry: KeyEntry) -> Group
    ensures { result ≡ entry_group entry }
{
    Group {
        key: Some(entry.key),
        members: entry.places,
    }
}

/// The longest runs of items with the same key (`group-adjacent`, XSLT 2.0, 14.3), each with its
/// first key.
pub fn group_adjacent(alloc: Global, keys: &List<Atom>) -> Result<List<Group>, AllocError>
    ensures { IfOk result (λ groups. groups ≡ grouped_adjacent keys.now) }
{
    let mut groups = Vec::new(alloc);
    if let [first, rest @ ..] = keys.as_slice() {
        begin_group(&mut groups, Some(first), 0)?;
        add_changes(&mut groups, first, rest)?;
    }
    Ok(List::of_vec(groups))
}

fn add_changes(groups: &mut Vec<Group>, first: &Atom, rest: &[Atom]) -> Result<(), AllocError>
    ensures { OnOk result (groups.new.items
        ≡ continued groups.old.items 1 (changes first.now rest.now)) }
{
    let mut before = first;
    let mut place = 1;
    for key in rest {
        add_place(groups, !key_same(before, key), Some(key), place)?;
        before = key;
        place += 1;
    }
    Ok(())
}

/// The groups that begin at the first item and at each where `starts` is true
/// (`group-starting-with`, XSLT 2.0, 14.3). They have no key.
pub fn group_starting(alloc: Global, starts: &[bool]) -> Result<List<Group>, AllocError>
    ensures { IfOk result (λ groups. groups ≡ grouped_starting starts.now) }
{
    let mut groups = Vec::new(alloc);
    if let [_, rest @ ..] = starts {
        begin_group(&mut groups, None, 0)?;
        add_starts(&mut groups, rest)?;
    }
    Ok(List::of_vec(groups))
}

fn add_starts(groups: &mut Vec<Group>, rest: &[bool]) -> Result<(), AllocError>
    ensures { OnOk result (groups.new.items
        ≡ continued groups.old.items 1 (map plain_mark rest.now)) }
{
    let mut place = 1;
    for begins in rest {
        add_place(groups, *begins, None, place)?;
        place += 1;
    }
    Ok(())
}

/// Puts a place into a group that begins there, or into the last group.
fn add_place(
    groups: &mut Vec<Group>,
    begins: bool,
    key: Option<&Atom>,
    place: u64,
) -> Result<(), AllocError>
    ensures { OnOk result (groups.new.items ≡ with_mark groups.old.items
        (record { begins = begins; key = option_copied key.entry }) place) }
{
    if begins {
        begin_group(groups, key, place)
    } else {
        extend_last(groups, place)
    }
}

fn begin_group(groups: &mut Vec<Group>, key: Option<&Atom>, place: u64) -> Result<(), AllocError>
    ensures { OnOk result (groups.new.items ≡ groups.old.items
        ++ record { key = option_copied key.entry; members = place ∷ [] } ∷ []) }
{
    let group = first_group(*groups.allocator(), key, place)?;
    groups.push(group)?;
    Ok(())
}

fn first_group(alloc: Global, key: Option<&Atom>, place: u64) -> Result<Group, AllocError>
    ensures { IfOk result (λ group. group
        ≡ record { key = option_copied key.entry; members = place ∷ [] }) }
{
    let mut members = List::new(alloc);
    members.push(place)?;
    let key = copied(key)?;
    Ok(Group { key, members })
}

fn copied(key: Option<&Atom>) -> Result<Option<Atom>, AllocError>
    ensures { IfOk result (λ copy. copy ≡ option_copied key.entry) }
{
    match key {
        Some(atom) => Ok(Some(atom.copy()?)),
        None => Ok(None),
    }
}

fn extend_last(groups: &mut Vec<Group>, place: u64) -> Result<(), AllocError>
    ensures { OnOk result (groups.new.items ≡ extended groups.old.items place) }
{
    let count = groups.len();
    if count > 0 {
        groups[count - 1].members.push(place)?;
    }
    Ok(())
}
