// The items of a sequence by their positions, which count from 1.
ghost use Rattle.std.specs.Prelude.{◌≡◌, ◌++◌, ◌<◌, ◌^◌, ◌+ℤ◌, IfOk, OnOk, length, min, reverse, take, drop, pos};
ghost use Rattle.xt_atoms.specs.Casts.{Answers};
ghost use Rattle.item_functions.specs.SequenceFunctions.Positions.{before, from_start, from_start_so_many, index_of, inserted_before, is_value, positions_of, removed};

use crate::sequence_functions::cardinality::OUT_OF_RANGE;
use crate::sequence_functions::copies::{copied, push_all};
use std::alloc::{AllocError, Global};
use xdm_items::{Item, ItemList};
use xt_atoms::{Atom, ValueFault, key_same};

/// How many items come before the position.
fn before(position: i128, count: usize) -> usize
    ensures { result ≡ min (before position) count }
{
    if position <= 1 {
        return 0;
    }
    match usize::try_from(position - 1) {
        Ok(place) => place.min(count),
        Err(_) => count,
    }
}

/// The items from a position on (`fn:subsequence`, Functions and Operators, 15.1.10).
pub fn subsequence_from(alloc: Global, items: &[Item], start: i64) -> Result<ItemList, AllocError>
    ensures { IfOk result (λ part. part ≡ from_start items.now start) }
{
    let first = before(i128::from(start), items.len());
    copied(alloc, &items[first..])
}

/// The items at the positions p with start <= p and p < start + length (`fn:subsequence`,
/// Functions and Operators, 15.1.10).
pub fn subsequence(
    alloc: Global,
    items: &[Item],
    start: i64,
    length: i64,
) -> Result<ItemList, AllocError>
    ensures { IfOk result (λ part. part ≡ from_start_so_many items.now start length) }
{
    let first = before(i128::from(start), items.len());
    let end = before(i128::from(start) + i128::from(length), items.len());
    if first < end {
        copied(alloc, &items[first..end])
    } else {
        Ok(ItemList::new(alloc))
    }
}

/// The items without the one at the position (`fn:remove`, Functions and Operators, 15.1.8).
pub fn remove(alloc: Global, items: &[Item], position: i64) -> Result<ItemList, AllocError>
    ensures { IfOk result (λ rest. rest ≡ removed items.now position) }
{
    let first = before(i128::from(position), items.len());
    let next = before(i128::from(position) + 1, items.len());
    joined(alloc, &items[..first], &[], &items[next..])
}

/// The items with others inserted before a position (`fn:insert-before`, Functions and Operators,
/// 15.1.7): first where it is below 1, and last where it is past the end.
#[tactic(auto, unfolding(crate::specs::SequenceFunctions::Positions::inserted_before))]
pub fn insert_before(
    alloc: Global,
    items: &[Item],
    position: i64,
    inserts: &[Item],
) -> Result<ItemList, AllocError>
    ensures { IfOk result (λ made. made ≡ inserted_before items.now position inserts.now) }
{
    let first = before(i128::from(position), items.len());
    joined(alloc, &items[..first], inserts, &items[first..])
}

fn joined(
    alloc: Global,
    front: &[Item],
    middle: &[Item],
    back: &[Item],
) -> Result<ItemList, AllocError>
    ensures { IfOk result (λ made. made ≡ front.now ++ middle.now ++ back.now) }
{
    let mut made = Vec::new(alloc);
    push_all(&mut made, front)?;
    push_all(&mut made, middle)?;
    push_all(&mut made, back)?;
    Ok(ItemList::of_vec(made))
}

/// The items from the last to the first (`fn:reverse`, Functions and Operators, 15.1.9).
pub fn reverse(alloc: Global, items: &[Item]) -> Result<ItemList, AllocError>
    ensures { IfOk result (λ made. made ≡ reverse items.now) }
{
    let mut made = Vec::with_capacity(alloc, items.len())?;
    let mut left = items;
    while let [rest @ .., last] = left {
        made.push(last.copy()?)?;
        left = rest;
    }
    Ok(ItemList::of_vec(made))
}

/// The positions of the items that are the same value (`fn:index-of`, Functions and Operators,
/// 15.1.3); texts are the same by their characters, untyped or not, and other atoms by kind and
/// value. FOAR0002 comes where there are more items than the greatest integer.
#[tactic(auto, unfolding(crate::specs::SequenceFunctions::Positions::index_of))]
pub fn index_of(alloc: Global, items: &[Item], value: &Atom) -> Result<ItemList, ValueFault>
    ensures { Answers (index_of items.now value.now) result }
{
    if items.len() as u64 <= 0x7FFF_FFFF_FFFF_FFFF {
        Ok(positions_of(alloc, items, value)?)
    } else {
        Err(ValueFault::Error(OUT_OF_RANGE))
    }
}

fn positions_of(alloc: Global, items: &[Item], value: &Atom) -> Result<ItemList, AllocError>
    requires { length items.now < 2 ^ 63 }
    ensures { IfOk result (λ made. made ≡ positions_of value.now 1 items.now) }
{
    let mut made = ItemList::new(alloc);
    let mut position: i64 = 0;
    for item in items {
        position += 1;
        if is_value(value, item) {
            made.push(Item::Atom(Atom::Int(position)))?;
        }
    }
    Ok(made)
}

fn is_value(value: &Atom, item: &Item) -> bool
    ensures { result ≡ is_value value.now item.now }
{
    match item {
        Item::Atom(atom) => key_same(value, atom),
        Item::Node(_) => false,
    }
}
