// Copies of items, which share their parts.
ghost use Rattle.std.specs.Prelude.{◌≡◌, ◌++◌, IfOk, OnOk};

use std::alloc::{AllocError, Global};
use xdm_items::{Item, ItemList};

/// The sequence of these items (`fn:unordered` too, Functions and Operators, 15.1.11).
pub fn copied(alloc: Global, items: &[Item]) -> Result<ItemList, AllocError>
    ensures { IfOk result (λ copy. copy ≡ items.now) }
{
    let mut made = Vec::with_capacity(alloc, items.len())?;
    push_all(&mut made, items)?;
    Ok(ItemList::of_vec(made))
}

/// Puts the items at the end.
pub(crate) fn push_all(made: &mut Vec<Item>, items: &[Item]) -> Result<(), AllocError>
    ensures { OnOk result (made.new.items ≡ made.old.items ++ items.now) }
{
    for item in items {
        made.push(item.copy()?)?;
    }
    Ok(())
}
