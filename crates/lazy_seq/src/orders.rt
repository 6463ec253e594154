// Document order.
ghost use Rattle.std.specs.Prelude.{◌≡◌, IfOk, true};
ghost use Rattle.std.specs.List.Sorted.{IsStrictlySortedBy};
ghost use Rattle.lazy_seq.specs.Orders.{item_cmp, in_document_order};

use std::alloc::AllocError;
use std::cmp::Ordering;
use xdm_items::{Item, ItemList};
use xt_tree::order_all;

/// The same nodes in document order, each once. Nodes that come so already are not moved.
pub(crate) fn in_order(items: ItemList) -> Result<ItemList, AllocError>
    ensures { IfOk result (λ made. made ≡ in_document_order items) }
{
    if rises(items.as_slice()) {
        return Ok(items);
    }
    let mut nodes = items.into_vec()?;
    nodes.sort_by(|a, b| order_items(a, b))?;
    nodes.dedup_by(|a, b| order_items(a, b).is_eq());
    Ok(ItemList::of_vec(nodes))
}

/// Whether each node comes before the next.
fn rises(items: &[Item]) -> bool
    ensures { result ≡ true → IsStrictlySortedBy item_cmp items.now }
{
    let mut next = 1;
    while next < items.len() {
        if !order_items(&items[next - 1], &items[next]).is_lt() {
            return false;
        }
        next += 1;
    }
    true
}

/// The order of two nodes: by the number of the tree, and then document order.
#[tactic(auto, unfolding(crate::specs::Orders::item_cmp, crate::specs::Orders::item_key))]
fn order_items(a: &Item, b: &Item) -> Ordering
    ensures { result ≡ item_cmp a.now b.now }
{
    match (a, b) {
        (Item::Node(first), Item::Node(second)) => order_all(first, second),
        (Item::Node(_), Item::Atom(_)) => Ordering::Greater,
        (Item::Atom(_), Item::Node(_)) => Ordering::Less,
        (Item::Atom(_), Item::Atom(_)) => Ordering::Equal,
    }
}
