// Document order.
ghost use Rattle.std.specs.Prelude.{◌≡◌, IfOk};
ghost use Rattle.xt_tree.specs.Place.{Place, place_cmp};
ghost use Rattle.node_axes.specs.StepWalks.Nodes.{in_tree_order};
ghost use Rattle.node_axes.specs.StepWalks.Within.{AreWithin};

use std::alloc::AllocError;
use std::cmp::Ordering;
use xt_tree::Node;

/// The same nodes in document order, each once (XPath 2.0, 2.4.1). Callers give nodes of one tree.
pub fn in_order(nodes: Vec<Node>) -> Result<Vec<Node>, AllocError>
    ensures { IfOk result (λ made. (n : Place) → AreWithin n nodes.items → made.items ≡ in_tree_order n nodes.items) }
{
    let mut nodes = nodes;
    nodes.sort_by(|a, b| order_places(a, b))?;
    nodes.dedup_by(|a, b| order_places(a, b).is_eq());
    Ok(nodes)
}

/// The order of two nodes of one tree.
fn order_places(a: &Node, b: &Node) -> Ordering
    ensures { result ≡ place_cmp a.now b.now }
{
    let attributes = a.attribute_place().cmp(&b.attribute_place());
    a.path().cmp(b.path()).then(attributes)
}
