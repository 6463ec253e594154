// Lists of items.
ghost use Rattle.std.specs.Prelude.{◌≡◌, ◌∷◌, [], ◌++◌, IfOk, OnOk};

use std::alloc::{AllocError, Global};
use xdm_items::{Item, ItemList};

/// A list of one item (XPath 2.0, 2).
#[inline(never)]
pub fn one(alloc: Global, item: Item) -> Result<ItemList, AllocError>
    ensures { IfOk result (λ list. list ≡ item ∷ []) }
{
    Ok(ItemList::one(alloc, item))
}

/// The items of the first list and those of the second after them (XPath 2.0, 3.3.1). A first list
/// without items takes no memory.
#[inline(never)]
pub fn append(list: ItemList, more: ItemList) -> Result<ItemList, AllocError>
    ensures { IfOk result (λ both. both ≡ list ++ more) }
{
    list.joined(more)
}
