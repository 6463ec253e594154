// The different values of a sequence.
ghost use Rattle.std.specs.Prelude.{◌≡◌, ◌++◌, [], IfOk, OnOk, map};
ghost use Rattle.order_group.specs.Groups.{atoms_of};
ghost use Rattle.order_group.specs.Steps.{with_row};
ghost use Rattle.item_functions.specs.SequenceFunctions.Values.{distinct_values, entry_value};

use order_group::atom_keys::{KeyEntry, KeyTable};
use std::alloc::{AllocError, Global};
use xdm_items::{Item, ItemList};

/// Each value where it first stands (`fn:distinct-values`, Functions and Operators, 15.1.6): texts
/// are the same by their characters, untyped or not, and other atoms by kind and value. The items
/// are atoms.
pub fn distinct_values(alloc: Global, atoms: &[Item]) -> Result<ItemList, AllocError>
    ensures { IfOk result (λ values. values ≡ distinct_values atoms.now) }
{
    let table = seen_in(alloc, atoms)?;
    let entries = table.into_entries();
    values_of(alloc, entries.as_slice())
}

fn seen_in(alloc: Global, atoms: &[Item]) -> Result<KeyTable, AllocError>
    ensures { IfOk result (λ table. table ≡ with_row [] (atoms_of atoms.now) 0) }
{
    let mut table = KeyTable::new(alloc);
    for item in atoms {
        match item {
            Item::Atom(value) => table.add(value, 0)?,
            Item::Node(_) => {}
        }
    }
    Ok(table)
}

fn values_of(alloc: Global, entries: &[KeyEntry]) -> Result<ItemList, AllocError>
    ensures { IfOk result (λ values. values ≡ map entry_value entries.now) }
{
    let mut made = Vec::with_capacity(alloc, entries.len())?;
    for entry in entries {
        made.push(Item::Atom(entry.key.copy()?))?;
    }
    Ok(ItemList::of_vec(made))
}
