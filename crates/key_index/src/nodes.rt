// Nodes in a list, each of them once.
ghost use Rattle.std.specs.Prelude.{◌≡◌, OnOk};
ghost use Rattle.key_index.specs.Nodes.{put_node, stands_last};

use std::alloc::AllocError;
use xdm_items::{Item, ItemList};
use xt_tree::{Node, order_all};

/// Puts the node at the end, unless it is there.
pub fn put_node(items: &mut ItemList, node: &Node) -> Result<(), AllocError>
    ensures { OnOk result (items.new ≡ put_node items.old node.now) }
{
    if stands_last(items.as_slice(), node) {
        Ok(())
    } else {
        items.push(Item::Node(node.copy()?))
    }
}

fn stands_last(items: &[Item], node: &Node) -> bool
    ensures { result ≡ stands_last items.now node.now }
{
    match items {
        [.., Item::Node(last)] => order_all(last, node).is_eq(),
        _ => false,
    }
}
